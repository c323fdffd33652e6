// Answers a batch of cases from standard input, one line for each, so that another program's answers can be held against them.
//
// A case is a head of 56 bytes, then term records, then a set record, or the text of a listing. The head: operation (1 plan, 2 wire, 3 thin, 4 read a
// listing; two bytes), length of the terms (two), of what is given behind them (four), then n, marks, degree, cap, limit and the length of the answer
// buffer (eight each); low byte first.
#![tactic(auto)]

mod answer;
mod head;

ghost use Rattle.std.specs.Prelude.{◌≤◌, length};

use head::{HEAD_BYTES, Head};
use lines::text::Line;
use std::convert::AsSlice;

// Why there are no more answers: the input is at its end, or a case is itself broken.
#[derive(Clone, Copy)]
enum Stop {
    Over,
    Broken,
}

// Reads n bytes to the start of a buffer. A case is broken where the input ends before.
fn fetch(buffer: &mut [u8], n: usize) -> Result<(), Stop>
    requires { n ≤ length buffer.old }
{
    if io::read_full(0, &mut buffer[..n]) == n {
        Ok(())
    } else {
        Err(Stop::Broken)
    }
}

// Reads what follows the head, and answers.
fn answer_rest(h: Head, terms: &mut [u8], given: &mut [u8], buffer: &mut [u8]) -> Result<(), Stop>
    requires terms { h.terms ≤ length terms.old }
    requires given { h.given ≤ length given.old }
    requires size { h.size ≤ length buffer.old }
{
    fetch(terms, h.terms)?;
    fetch(given, h.given)?;
    let mut line = Line::new();
    answer::answer_case(
        h,
        &terms[..h.terms],
        &given[..h.given],
        &mut buffer[..h.size],
        &mut line,
    );
    io::write_all(1, line.as_slice());
    Ok(())
}

// Answers the case of a head. The buffers are those of the kit, larger than the lengths that a right head has.
fn answer_head(h: Head) -> Result<(), Stop> {
    if !head::is_right(h) {
        return Err(Stop::Broken);
    }
    let mut terms = io::buffer();
    let mut given = io::large_buffer();
    let mut buffer = io::large_buffer();
    answer_rest(h, &mut terms, &mut given, &mut buffer)
}

// Reads and answers the next case.
fn answer_next() -> Result<(), Stop> {
    let mut bytes = [0u8; HEAD_BYTES];
    let got = io::read_full(0, &mut bytes);
    if got == 0 {
        return Err(Stop::Over);
    }
    if got < HEAD_BYTES {
        return Err(Stop::Broken);
    }
    answer_head(head::read(&bytes).ok_or(Stop::Broken)?)
}

fn main() {
    // Nothing says that an input ends, so there is a most that is answered.
    for _ in 0..1000000000000u64 {
        match answer_next() {
            Ok(()) => {}
            Err(Stop::Over) => {
                return;
            }
            Err(Stop::Broken) => {
                io::write_all(1, b"broken batch\n");
                return;
            }
        }
    }
}
