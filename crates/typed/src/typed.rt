// The lines of a listing: the heading, a line for each new name, the blank line, a line for each derivative.
ghost use Rattle.std.specs.Prelude.{◌≡◌, [], ◌++◌, map, ◌+◌, ◌*◌, ◌≤◌, ◌<◌, ◌↔◌, length, take, drop, IsTrue};
ghost use Rattle.monomial.specs.Monomial.{width};
ghost use Rattle.wiring.specs.Sets.{places};
ghost use Rattle.wiring.specs.Panel.{cards};
ghost use Rattle.lines.specs.Text.{joined};
ghost use Rattle.listing.specs.Bytes.{star};
ghost use Rattle.grammar.specs.Grammar.{signal_text, names_text, body_text, factor_text, name_text, right_text};
ghost use Rattle.typed.specs.Typed.{power_of, factors_of, names_of, written_of, sign_text, term_text, term_of, terms_of, derivative_line, wire_at, wires_in, listing_lines, typed_line, Listed};

use lines::text::Line;
use listing::known::Known;
use listing::lines::{digit_of, left_of, letter_of};
use monomial::Monomial;
use monomial::width::WIDTH;
use wiring::coefficient;
use wiring::panel::{SET_BYTES, WIRE_BYTES};

// A line with all the terms that a wiring list has fits.
pub const LISTED_BYTES: usize = 8192;

// A name.
fn put_signal(known: Known, s: u64, line: &mut Line<LISTED_BYTES>)
    requires signal { s ≤ 18 }
    requires room { length line.old + 2 ≤ LISTED_BYTES }
    ensures text { line.new ≡ line.old ++ signal_text known s }
    ensures short { length line.new ≤ length line.old + 2 }
{
    let letter = letter_of(known, s);
    let digit = digit_of(known, s);
    line.put_text(&[letter, digit]);
}

// The product of two signals.
fn put_names(known: Known, a: u64, b: u64, line: &mut Line<LISTED_BYTES>)
    requires first { a ≤ 18 }
    requires second { b ≤ 18 }
    requires room { length line.old + 5 ≤ LISTED_BYTES }
    ensures text { line.new ≡ line.old ++ names_text known (names_of a b) }
    ensures short { length line.new ≤ length line.old + 5 }
{
    if a == 0 {
        if b != 0 {
            put_signal(known, b, line);
        }
        return;
    }
    put_signal(known, a, line);
    if a == b {
        line.put_text(b"**2");
    } else {
        line.put_text(b"*");
        put_signal(known, b, line);
    }
}

// A coefficient, 0 where none is written, and names. No Option, here and below: `body_text` of the grammar holds 0 itself to be none.
fn put_body(known: Known, c: u64, a: u64, b: u64, line: &mut Line<LISTED_BYTES>)
    requires first { a ≤ 18 }
    requires second { b ≤ 18 }
    requires room { length line.old + 26 ≤ LISTED_BYTES }
    ensures text { line.new ≡ line.old ++ body_text known c (names_of a b) }
    ensures short { length line.new ≤ length line.old + 26 }
{
    if c == 0 {
        put_names(known, a, b, line);
        return;
    }
    line.put_number(c);
    if a + b != 0 {
        line.put_text(b"*");
        put_names(known, a, b, line);
    }
}

// What stands before term number i of a line.
fn put_sign(negative: bool, i: usize, line: &mut Line<LISTED_BYTES>)
    requires { length line.old + 3 ≤ LISTED_BYTES }
    ensures text { line.new ≡ line.old ++ sign_text i negative }
    ensures short { length line.new ≤ length line.old + 3 }
{
    if i == 0 {
        if negative {
            line.put_text(b"-");
        }
    } else if negative {
        line.put_text(b" - ");
    } else {
        line.put_text(b" + ");
    }
}

// The coefficient that is written before the product of two signals, 0 for none.
fn written(size: u64, a: u64, b: u64) -> u64
    requires first { a ≤ 18 }
    requires second { b ≤ 18 }
    ensures { result ≡ written_of size (names_of a b) }
{
    if size == 1 && 0 < a + b { 0 } else { size }
}

// A power of variable number i, from 0.
fn put_factor(i: usize, e: u8, line: &mut Line<LISTED_BYTES>)
    requires variable { i < width }
    requires some { 0 < e }
    requires room { length line.old + 24 ≤ LISTED_BYTES }
    ensures text { (k : Known) → line.new ≡ line.old ++ factor_text k (power_of i e) }
    ensures short { length line.new ≤ length line.old + 24 }
{
    line.put_text(&[b'x', b'1' + i as u8]);
    if e != 1 {
        line.put_text(b"**");
        line.put_number(u64::from(e));
    }
}

// The powers of a monomial.
fn put_factors(m: Monomial, line: &mut Line<LISTED_BYTES>)
    requires { length line.old + 25 * width ≤ LISTED_BYTES }
    ensures text { (k : Known) → line.new ≡ line.old ++ joined star (map (factor_text k) (factors_of m.e)) }
    ensures short { length line.new ≤ length line.old + 25 * width }
{
    let mut some = 0;
    for (i, &e) in m.e.iter().enumerate() {
        if e != 0 {
            line.put_lead(some, b'*');
            put_factor(i, e, line);
            some += 1;
        }
    }
}

// The line of new name number i, from 0.
fn name_line(set: &[u8; SET_BYTES], i: usize, line: &mut Line<LISTED_BYTES>)
    requires new { i < cards }
    requires empty { line.old ≡ [] }
    ensures { (k : Known) → line.new ≡ name_text k i (factors_of (take width (drop (width * i) set.now))) }
{
    line.put_text(&[b'w', b'0' + i as u8, b' ', b'=', b' ']);
    put_factors(Monomial::read(set, WIDTH * i), line);
    line.put_text(b"\n");
}

// A set and its wiring list, to be typed: so many monomials of a set record, and so many wiring records.
#[derive(Clone, Copy)]
pub struct Listing<'a> {
    pub known: Known,
    pub set: &'a [u8; SET_BYTES],
    pub size: usize,
    pub wires: &'a [u8],
    pub count: usize,
    pub ghost few: { known.n ≤ width },
    pub ghost small: { size ≤ cards },
    pub ghost listed: { Listed count wires.now },
}

impl Listing<'_> {
    // Term number i of a line, which is wiring record number j.
    fn put_term(self, j: usize, i: usize, line: &mut Line<LISTED_BYTES>)
        requires there { j < self.count }
        requires room { length line.old + 29 ≤ LISTED_BYTES }
        ensures text { line.new ≡ line.old ++ term_text self.entry.known i (term_of (wire_at self.entry.wires.now j)) }
        ensures short { length line.new ≤ length line.old + 29 }
    {
        let from = WIRE_BYTES * j;
        let a = u64::from(self.wires[from + 1]);
        let b = u64::from(self.wires[from + 2]);
        let c = coefficient::decode(self.wires, from + 4);
        put_sign(c < 0, i, line);
        put_body(
            self.known,
            written(u64::from(c.unsigned_abs()), a, b),
            a,
            b,
            line,
        );
    }

    // The right side of the line of signal l.
    fn put_right(self, l: u64, line: &mut Line<LISTED_BYTES>)
        requires { length line.old + 29 * self.count + 1 ≤ LISTED_BYTES }
        ensures text { line.new ≡ line.old ++ right_text self.entry.known (terms_of (wires_in self.entry.count self.entry.wires.now) l) }
        ensures short { length line.new ≤ length line.old + 29 * self.entry.count + 1 }
    {
        let mut i = 0;
        for j in 0..self.count {
            if u64::from(self.wires[WIRE_BYTES * j]) == l {
                self.put_term(j, i, line);
                i += 1;
            }
        }
        if i == 0 {
            line.put_text(b"0");
        }
    }

    // The line of the derivative of signal l.
    fn derivative_line(self, l: u64, line: &mut Line<LISTED_BYTES>)
        requires signal { l ≤ 18 }
        requires empty { line.old ≡ [] }
        ensures { line.new ≡ derivative_line self.entry.known (wires_in self.entry.count self.entry.wires.now) l }
    {
        put_signal(self.known, l, line);
        line.put_text(b"' = ");
        self.put_right(l, line);
        line.put_text(b"\n");
    }

    // Line number j, from 0, and whether there is one: nothing behind the last.
    pub fn line_at(self, j: usize, line: &mut Line<LISTED_BYTES>) -> bool
        ensures text { line.new ≡ typed_line self.entry.known self.entry.size self.entry.set.now self.entry.count self.entry.wires.now j }
        ensures there { IsTrue result ↔ (j < length (listing_lines self.entry.known (take self.entry.size (places self.entry.set.now)) (wires_in self.entry.count self.entry.wires.now))) }
    {
        line.clear();
        if j == 0 {
            line.put_text(b"Introduced variables:\n");
            return true;
        }
        let i = j - 1;
        if i < self.size {
            name_line(self.set, i, line);
            return true;
        }
        if i == self.size {
            line.put_text(b"\n");
            return true;
        }
        let Some(l) = left_of(self.known, self.size as u64, (i - self.size - 1) as u64) else {
            return false;
        };
        self.derivative_line(l, line);
        true
    }
}
