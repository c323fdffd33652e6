// Prepares the report that is asked for, and writes it.
ghost use Rattle.std.specs.Prelude.{◌≡◌, length, ◌*◌};
ghost use Rattle.wiring.specs.Panel.{set_bytes};
ghost use Rattle.asked.specs.Settings.{most_sets};
ghost use Rattle.asked.specs.Answer.{Answers};

use super::input;
use super::settings::{Asked, MOST_SETS};
use report::prepare::Prepared;
use report::{prepare, write};
use wiring::panel::{SET_BYTES, WIRES_BYTES};
use wiring::reply::Reply;

// A buffer for the most sets that can be asked for.
pub(crate) const SETS_BYTES: usize = SET_BYTES * MOST_SETS;

pub(crate) fn large_buffer() -> [u8; SETS_BYTES]
    ensures { length result ≡ set_bytes * most_sets }
{
    [0u8; SETS_BYTES]
}

// Plans or thins and wires, or wires alone, as it is asked for; of wrong words only the reply is told. Where the input
// has fewer bytes than the set record that it is to begin with, all of them are the set, which is refused.
pub(crate) fn prepare_asked(
    a: Option<Asked>,
    input: &[u8],
    sets: &mut [u8; SETS_BYTES],
    out: &mut [u8; WIRES_BYTES],
) -> Prepared
    ensures { Answers a input.now result sets.old sets.new out.old out.new }
{
    let at = input::given_bytes(a).min(input.len());
    let set = &input[..at];
    let terms = &input[at..];
    match a {
        Some(Asked::Plan(s)) => prepare::prepare(s, terms, sets, out),
        Some(
            Asked::Thin {
                n,
                marks,
                degree,
                which,
            },
        ) => { prepare::prepare_thin(n, marks, degree, which, terms, set, sets, out) },
        Some(Asked::Wire { n, marks, degree }) => prepare::prepare_wire(
            n, marks, degree, terms, set, out,
        ),
        None => Prepared {
            reply: Reply::Setting,
            lent: 0,
            wires: 0,
        },
    }
}

// Writes the lines of what was prepared.
pub(crate) fn write_asked(p: Prepared, sets: &[u8; SETS_BYTES], wires: &[u8; WIRES_BYTES]) {
    write::write_lines(p, sets, wires);
}
