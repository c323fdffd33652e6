// The desktop tool's listings: types the listing of a given set, or reads one for a system. It writes the line of the
// reply, and after code 0 the lines of the listing, or a line with the set that was read.
//
//     listed N MARKS DEGREE < set-record term-records     types
//     listed N MARKS DEGREE BYTES < term-records text     reads: so many bytes are the term records
#![tactic(auto)]

mod reading;
mod typing;
mod words;

ghost use Rattle.listed.specs.Typing.{Ready};

use desktop::read::Heard;
use lines::lengths::LINE_BYTES;
use lines::text::Line;
use lines::{answer, write};
use std::convert::AsSlice;
use typed::typed::LISTED_BYTES;
use typing::Typing;
use wiring::panel::WIRES_BYTES;
use wiring::reply;
use wiring::reply::Reply;

// One word more than can be right tells that there are more.
const MOST_WORDS: usize = 6;

// Writes line after line of a listing that is typed, until there is none.
fn write_typing(t: Typing, wires: &[u8; WIRES_BYTES])
    requires { Ready t wires.now }
{
    write::write_lines(Line::new(), |k: usize, line: &mut Line<LISTED_BYTES>| {
        typing::typing_line(t, wires, k, line)
    });
}

// Writes line after line of what was read, until there is none.
fn write_reading(h: Heard) {
    // `h` is borrowed by its two parts: the kit makes no proof of this call where the closure holds one borrow alone.
    write::write_lines(Line::new(), |k: usize, line: &mut Line<LINE_BYTES>| {
        reading::reading_line(Heard { ..h }, k, line)
    });
}

// Of so many words as ask for nothing the reply of code 1 is told.
fn write_wrong() {
    let mut line = Line::new();
    answer::reply_line(reply::numbers(Reply::Setting), &mut line);
    io::write_all(1, line.as_slice());
}

// Reads the input, and types. n, marks and degree go one by one in this crate, as to the operations that include/planner.h declares.
fn type_listing(n: u64, marks: u64, degree: u64) {
    let mut input = typing::input_buffer();
    let length = io::read_full(0, &mut input);
    let mut wires = [0u8; WIRES_BYTES];
    let t = typing::prepare_typing(n, marks, degree, &input[..length], &mut wires);
    write_typing(t, &wires);
}

// Reads the input, and the listing in it.
fn read_listing(n: u64, marks: u64, degree: u64, bytes: u64) {
    let mut input = reading::input_buffer();
    let length = io::read_full(0, &mut input);
    write_reading(reading::prepare_reading(n, marks, degree, bytes, &input[..length]));
}

// The program's name stands before the words.
fn main(rt: HostRuntime) {
    match lines::words::count_words(&rt, MOST_WORDS) {
        4 => type_listing(
            words::word_at(&rt, 1),
            words::word_at(&rt, 2),
            words::word_at(&rt, 3),
        ),
        5 => read_listing(
            words::word_at(&rt, 1),
            words::word_at(&rt, 2),
            words::word_at(&rt, 3),
            words::word_at(&rt, 4),
        ),
        _ => write_wrong(),
    }
}
