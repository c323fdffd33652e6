// The functions that C calls. A slice is a pointer and a length, and the five numbers (code, order, count, steps, place) go to the caller's place.
// None asks anything of its caller beyond that a slice is one. They differ in the operation alone: include/planner.h declares each.
ghost use Rattle.std.specs.Prelude.{◌≡◌, length};
ghost use Rattle.wiring.specs.Sockets.{panel_of};
ghost use Rattle.wiring.specs.Answers.{wired};
ghost use Rattle.walk.specs.Plan.{planned};
ghost use Rattle.thin.specs.Thin.{thinned};
ghost use Rattle.desktop.specs.Read.{read_listing};
ghost use Rattle.planner_c.specs.Calls.{answer, given};

use desktop::read;
use thin::thin as thinning;
use walk::plan;
use wiring::panel::SET_BYTES;
use wiring::{answers, reply};

// Plans: every smallest set in the buffer, or how far the walk got.
#[unsafe(no_mangle)]
pub extern "C" fn siragumon_plan(
    n: u64,
    marks: u64,
    degree: u64,
    cap: u64,
    limit: u64,
    terms: &[u8],
    out: &mut [u8],
    five: &mut [u64; 5],
)
    ensures { answer five.new out.new ≡ given (planned (panel_of n marks degree) cap limit terms.now (length out.old)) }
{
    let r = plan::plan(n, marks, degree, cap, limit, terms, out);
    *five = reply::numbers(r);
}

// Wires: judges a set, and writes the list of a quadratic one into the buffer. Who wants the verdict alone lends an empty buffer.
#[unsafe(no_mangle)]
pub extern "C" fn siragumon_wire(
    n: u64,
    marks: u64,
    degree: u64,
    terms: &[u8],
    set: &[u8],
    out: &mut [u8],
    five: &mut [u64; 5],
)
    ensures { answer five.new out.new ≡ given (wired (panel_of n marks degree) terms.now set.now (length out.old)) }
{
    let r = answers::wire(n, marks, degree, terms, set, out);
    *five = reply::numbers(r);
}

// Thins: every smallest quadratic subset of a quadratic set in the buffer.
#[unsafe(no_mangle)]
pub extern "C" fn siragumon_thin(
    n: u64,
    marks: u64,
    degree: u64,
    terms: &[u8],
    set: &[u8],
    out: &mut [u8],
    five: &mut [u64; 5],
)
    ensures { answer five.new out.new ≡ given (thinned (panel_of n marks degree) terms.now set.now (length out.old)) }
{
    let r = thinning::thin(n, marks, degree, terms, set, out);
    *five = reply::numbers(r);
}

// Reads a listing of the desktop tool: whether it is right, and the record of its set.
#[unsafe(no_mangle)]
pub extern "C" fn siragumon_read_listing(
    n: u64,
    marks: u64,
    degree: u64,
    terms: &[u8],
    text: &[u8],
    set: &mut [u8; SET_BYTES],
    five: &mut [u64; 5],
)
    ensures { answer five.new set.new ≡ given (read_listing (panel_of n marks degree) terms.now text.now) }
{
    let heard = read::read_listing(n, marks, degree, terms, text);
    let bytes = heard.set;
    let said = heard.reply;
    *set = bytes;
    *five = reply::numbers(said);
}
