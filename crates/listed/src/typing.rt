// Types the listing of a given set: wires it once, and then gives the lines one by one.
ghost use Rattle.std.specs.Prelude.{◌≡◌, [], ◌<◌, ◌↔◌, length, get_or, IsTrue};
ghost use Rattle.wiring.specs.Sockets.{panel_of};
ghost use Rattle.lines.specs.Input.{set_in, terms_in};
ghost use Rattle.listed.specs.Typing.{most_typed, typed_lines, Ready, Types};

use lines::answer;
use lines::text::Line;
use listing::known::Known;
use typed::typed::{LISTED_BYTES, Listing};
use wiring::panel::{Panel, SET_BYTES, TERMS_BYTES, WIRES_BYTES};
use wiring::reply::Reply;
use wiring::{answers, buffer, reply};

const INPUT_BYTES: usize = SET_BYTES + TERMS_BYTES + 1;

// A buffer for the input: a set record, then term records. One byte more than can be right tells that there are more.
pub(crate) fn input_buffer() -> [u8; INPUT_BYTES]
    ensures { length result ≡ most_typed }
{
    [0u8; INPUT_BYTES]
}

// The reply of wiring, what the panel makes known to the reader of its listings, and the record of the set, with zeros
// where it is cut short.
#[derive(Clone, Copy)]
pub struct Typing {
    pub reply: Reply,
    pub known: Known,
    pub set: [u8; SET_BYTES],
}

// Wires the set whose record the input begins with. Where the input has fewer bytes than that, all of them are the set,
// which is refused.
pub(crate) fn prepare_typing(
    n: u64,
    marks: u64,
    degree: u64,
    input: &[u8],
    wires: &mut [u8; WIRES_BYTES],
) -> Typing
    ensures { Types (panel_of n marks degree) (terms_in input.now) (set_in input.now) result wires.new }
{
    let at = SET_BYTES.min(input.len());
    let given = &input[..at];
    let terms = &input[at..];
    let mut set = [0u8; SET_BYTES];
    buffer::put(&mut set, 0, given);
    let reply = answers::wire(n, marks, degree, terms, given, wires);
    let known = Known::from(Panel {
        n: n as usize,
        marks,
        degree,
    });
    Typing { reply, known, set }
}

// Line number k of all that is written, from 0, and whether there is one: nothing behind the last.
pub(crate) fn typing_line(
    t: Typing,
    wires: &[u8; WIRES_BYTES],
    k: usize,
    line: &mut Line<LISTED_BYTES>,
) -> bool
    requires { Ready t wires.now }
    ensures text { line.new ≡ get_or (typed_lines t wires.now) k [] }
    ensures there { IsTrue result ↔ (k < length (typed_lines t wires.now)) }
{
    let five = reply::numbers(t.reply);
    line.clear();
    if k == 0 {
        answer::put_reply(five, line);
        return true;
    }
    if five[0] != 0 {
        return false;
    }
    let listing = Listing {
        known: t.known,
        set: &t.set,
        size: five[1] as usize,
        wires,
        count: five[2] as usize,
    };
    listing.line_at(k - 1, line)
}
