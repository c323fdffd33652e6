// The line of one case of a batch: the five numbers, and the answer buffer in full or by its digest.
ghost use Rattle.std.specs.Prelude.{◌≡◌, ◌+◌, ◌*◌, ◌^◌, ◌<◌, ◌≤◌, ◌++◌, length};
ghost use Rattle.io.specs.Digits.{last_digits};
ghost use Rattle.lines.specs.Lengths.{hex_bytes};
ghost use Rattle.lines.specs.Case.{hex_text, buffer_text, case_line};

use super::digest;
use super::lengths::{LINE_BYTES, SHOWN_BYTES};
use super::text::Line;

// A number below 16 to the power of `places` in so many hexadecimal digits. `write!` is no plainer, as for `put_number`.
fn put_hex(n: u64, places: usize, line: &mut Line<LINE_BYTES>)
    requires some { 1 ≤ places }
    requires few { places ≤ 16 }
    requires fits { n < 16 ^ places }
    requires room { length line.old + places ≤ LINE_BYTES }
    ensures text { line.new ≡ line.old ++ last_digits 16 places n }
    ensures long { length line.new ≡ length line.old + places }
{
    let mut text = [0u8; 16];
    let k = io::hex(n, places, &mut text);
    line.put_text(&text[..k]);
}

// Bytes as two digits each.
fn put_bytes(s: &[u8], line: &mut Line<LINE_BYTES>)
    requires { length line.old + 2 * length s.now ≤ LINE_BYTES }
    ensures text { line.new ≡ line.old ++ hex_text s.now }
    ensures long { length line.new ≡ length line.old + 2 * length s.now }
{
    for &x in s {
        put_hex(u64::from(x), 2, line);
    }
}

// The buffer in full, or its digest.
fn put_buffer(s: &[u8], line: &mut Line<LINE_BYTES>)
    requires { length line.old + hex_bytes ≤ LINE_BYTES }
    ensures text { line.new ≡ line.old ++ buffer_text s.now }
    ensures short { length line.new ≤ length line.old + hex_bytes }
{
    if s.is_empty() {
        line.put_text(b"-");
    } else if s.len() <= SHOWN_BYTES {
        put_bytes(s, line);
    } else {
        line.put_text(b"#");
        put_hex(digest::digest(s), 16, line);
    }
}

// A reply, and the buffer that was lent.
pub fn case_line(five: [u64; 5], buffer: &[u8], line: &mut Line<LINE_BYTES>)
    ensures { line.new ≡ case_line five buffer.now }
{
    line.clear();
    line.put_joined(&five, b' ');
    line.put_text(b" ");
    put_buffer(buffer, line);
    line.put_text(b"\n");
}
