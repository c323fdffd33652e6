// Reads a listing, and then gives the lines of what is said of it one by one.
ghost use Rattle.std.specs.Prelude.{◌≡◌, [], ◌<◌, ◌↔◌, length, get_or, take, drop, IsTrue};
ghost use Rattle.wiring.specs.Sockets.{panel_of};
ghost use Rattle.wiring.specs.Reply.{outcome};
ghost use Rattle.desktop.specs.Read.{read_listing};
ghost use Rattle.listed.specs.Reading.{most_read, heard_lines};

use desktop::read;
use desktop::read::{Heard, MOST_TEXT};
use lines::answer;
use lines::lengths::LINE_BYTES;
use lines::text::Line;
use wiring::panel::TERMS_BYTES;
use wiring::reply;

const INPUT_BYTES: usize = TERMS_BYTES + 1 + MOST_TEXT + 1;

// A buffer for the input: term records, then a text. One byte more of each than can be right tells that there are more.
pub(crate) fn input_buffer() -> [u8; INPUT_BYTES]
    ensures { length result ≡ most_read }
{
    [0u8; INPUT_BYTES]
}

// Reads the listing behind the first bytes of the input, which are the term records. Where the input has fewer bytes than
// that, all of them are terms, and the text is empty.
pub(crate) fn prepare_reading(n: u64, marks: u64, degree: u64, bytes: u64, input: &[u8]) -> Heard
    ensures { outcome result.reply result.set
        ≡ read_listing (panel_of n marks degree) (take bytes input.now) (drop bytes input.now) }
{
    let at = bytes.min(input.len() as u64) as usize;
    let terms = &input[..at];
    let text = &input[at..];
    read::read_listing(n, marks, degree, terms, text)
}

// Line number k of all that is written, from 0, and whether there is one: nothing behind the last.
pub(crate) fn reading_line(h: Heard, k: usize, line: &mut Line<LINE_BYTES>) -> bool
    ensures text { line.new ≡ get_or (heard_lines (outcome h.reply h.set)) k [] }
    ensures there { IsTrue result ↔ (k < length (heard_lines (outcome h.reply h.set))) }
{
    let five = reply::numbers(h.reply);
    if k == 0 {
        answer::reply_line(five, line);
        return true;
    }
    line.clear();
    if five[0] != 0 {
        return false;
    }
    if k != 1 {
        return false;
    }
    answer::set_line(&h.set, five[1] as usize, line);
    true
}
