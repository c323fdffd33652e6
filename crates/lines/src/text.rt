// A line of text in fixed memory, and the pieces that are put into it, one behind the other.
ghost use Rattle.std.specs.Prelude.{◌≡◌, ℕ, ◌+◌, ◌*◌, ◌≤◌, List, [], ◌∷◌, ◌++◌, map, length, take, unsigned_abs};
ghost use Rattle.lines.specs.Lengths.{number_bytes, piece_bytes};
ghost use Rattle.lines.specs.Text.{decimal, signed_text, joined, lead};

use super::lengths::NUMBER_BYTES;
use std::convert::AsSlice;
use std::marker::Model;

// What has been put so far stands at the front of the bytes.
#[derive(Drop)]
pub struct Line<const N: usize> {
    bytes: [u8; N],
    end: usize,
}

// Clauses see that text alone.
impl<const N: usize> Model for Line<N> {
    ghost Value = { List ℕ };

    ghost view = { λ l. take l.end l.bytes };

    ghost invariant = { λ l. l.end ≤ N };
}

impl<const N: usize> Line<N> {
    pub fn new() -> Self
        ensures { result ≡ [] }
    {
        Line {
            bytes: [0; N],
            end: 0,
        }
    }

    pub fn clear(&mut self)
        ensures { self.new ≡ [] }
    {
        self.end = 0;
    }

    // Bytes as they are.
    pub fn put_text(&mut self, s: &[u8])
        requires { length self.old + length s.now ≤ N }
        ensures { self.new ≡ self.old ++ s.now }
    {
        let end = self.end + s.len();
        let bytes = &mut self.bytes[..];
        bytes[self.end..end].copy_from_slice(s);
        self.end = end;
    }

    // A number in decimal. `write!` is no plainer: it can fail, and each call here would have to rule that out.
    pub fn put_number(&mut self, n: u64)
        requires { length self.old + number_bytes ≤ N }
        ensures text { self.new ≡ self.old ++ decimal n }
        ensures room { length self.new ≤ length self.old + number_bytes }
    {
        let mut digits = [0u8; NUMBER_BYTES];
        let k = io::decimal(n, &mut digits);
        self.put_text(&digits[..k]);
    }

    // A signed number.
    pub(crate) fn put_signed(&mut self, c: i32)
        requires { length self.old + piece_bytes ≤ N }
        ensures text { self.new ≡ self.old ++ signed_text c }
        ensures room { length self.new ≤ length self.old + piece_bytes }
    {
        if c < 0 {
            self.put_text(b"-");
        }
        self.put_number(u64::from(c.unsigned_abs()));
    }

    // What stands before piece number i: nothing before the first.
    pub fn put_lead(&mut self, i: usize, between: u8)
        requires { length self.old + 1 ≤ N }
        ensures text { self.new ≡ self.old ++ lead i between }
        ensures room { length self.new ≤ length self.old + 1 }
    {
        if i != 0 {
            self.put_text(&[between]);
        }
    }

    // Numbers in decimal with a byte between each two.
    pub(crate) fn put_joined(&mut self, numbers: &[u64], between: u8)
        requires { length self.old + piece_bytes * length numbers.now ≤ N }
        ensures text { self.new ≡ self.old ++ joined between (map decimal numbers.now) }
        ensures room { length self.new ≤ length self.old + piece_bytes * length numbers.now }
    {
        for (i, &n) in numbers.iter().enumerate() {
            self.put_lead(i, between);
            self.put_number(n);
        }
    }
}

// The text, to be shown.
impl<const N: usize> AsSlice<u8> for Line<N> {
    ghost items = { λ text. text };

    fn as_slice(&self) -> &[u8] {
        &self.bytes[..self.end]
    }
}
