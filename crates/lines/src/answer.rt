// The lines of an answer: the five numbers of a reply, a set by its record, a wiring record. A line that is made takes the place
// of what was there before.
ghost use Rattle.std.specs.Prelude.{◌≡◌, ◌+◌, ◌*◌, ◌≤◌, ◌++◌, length, take, drop};
ghost use Rattle.monomial.specs.Monomial.{width};
ghost use Rattle.wiring.specs.Panel.{set_bytes};
ghost use Rattle.lines.specs.Lengths.{reply_bytes, powers_bytes, set_text_bytes};
ghost use Rattle.lines.specs.Answer.{reply_line, exponents, set_text, set_line, wire_line};

use super::lengths::LINE_BYTES;
use super::text::Line;
use monomial::Monomial;
use monomial::width::WIDTH;
use wiring::coefficient;
use wiring::panel::{CARDS, SET_BYTES, WIRE_BYTES};

// Code, order, count, steps and place, behind what the line holds.
pub fn put_reply<const N: usize>(five: [u64; 5], line: &mut Line<N>)
    requires { length line.old + reply_bytes ≤ N }
    ensures { line.new ≡ line.old ++ reply_line five }
{
    line.put_joined(&five, b' ');
    line.put_text(b"\n");
}

pub fn reply_line(five: [u64; 5], line: &mut Line<LINE_BYTES>)
    ensures { line.new ≡ reply_line five }
{
    line.clear();
    put_reply(five, line);
}

// The six exponents at place i of a set record.
fn put_monomial(bytes: &[u8], i: usize, line: &mut Line<LINE_BYTES>)
    requires there { width * i + width ≤ length bytes.now }
    requires room { length line.old + powers_bytes ≤ LINE_BYTES }
    ensures text { line.new ≡ line.old ++ exponents (take width (drop (width * i) bytes.now)) }
    ensures short { length line.new ≤ length line.old + powers_bytes }
{
    let m = Monomial::read(bytes, WIDTH * i);
    line.put_joined(&m.e.map(u64::from), b'.');
}

// The first `size` monomials of a set record, or all that it has.
fn put_set(bytes: &[u8], size: usize, line: &mut Line<LINE_BYTES>)
    requires whole { length bytes.now ≡ set_bytes }
    requires room { length line.old + set_text_bytes ≤ LINE_BYTES }
    ensures text { line.new ≡ line.old ++ set_text bytes.now size }
    ensures short { length line.new ≤ length line.old + set_text_bytes }
{
    for i in 0..size.min(CARDS) {
        line.put_lead(i, b' ');
        put_monomial(bytes, i, line);
    }
}

// A set by its record and size.
pub fn set_line(bytes: &[u8; SET_BYTES], size: usize, line: &mut Line<LINE_BYTES>)
    ensures { line.new ≡ set_line bytes.now size }
{
    line.clear();
    put_set(bytes, size, line);
    line.put_text(b"\n");
}

// Left variable, first and second factor, coefficient.
pub fn wire_line(bytes: &[u8; WIRE_BYTES], line: &mut Line<LINE_BYTES>)
    ensures { line.new ≡ wire_line bytes.now }
{
    let three = [
        u64::from(bytes[0]),
        u64::from(bytes[1]),
        u64::from(bytes[2]),
    ];
    line.clear();
    line.put_joined(&three, b' ');
    line.put_text(b" ");
    line.put_signed(coefficient::decode(bytes, 4));
    line.put_text(b"\n");
}
