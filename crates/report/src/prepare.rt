// Plans or thins and wires once, or wires a given set alone, into lent buffers: what the lines of a report are made of.
ghost use Rattle.std.specs.Prelude.{◌≡◌, List, ℕ, ◌*◌, ◌≤◌, length};
ghost use Rattle.wiring.specs.Panel.{set_bytes};
ghost use Rattle.wiring.specs.Sockets.{panel_of};
ghost use Rattle.report.specs.Prepare.{counted, wiring_of, fitted, Prepares, PreparesThin, PreparesWire};

use thin::thin as thinning;
use walk::plan;
use wiring::panel::{SET_BYTES, WIRES_BYTES};
use wiring::reply::Reply;
use wiring::{answers, buffer, reply};

// What planning is asked for. Room is in sets. The set that is wired goes by its number, from 1.
#[derive(Clone, Copy)]
pub struct Settings {
    pub n: u64,
    pub marks: u64,
    pub degree: u64,
    pub cap: u64,
    pub limit: u64,
    pub room: usize,
    pub which: u64,
}

// The reply, how many bytes of a buffer were lent for sets, and the number of wiring records.
#[derive(Clone, Copy)]
pub struct Prepared {
    pub reply: Reply,
    pub lent: usize,
    pub wires: u64,
}

// Wires set number `which` of so many, from 1, and gives the number of records: zeros where there is no such set.
// n, marks and degree go one by one here and below, as to the operations that include/planner.h declares.
fn wire_set(
    n: u64,
    marks: u64,
    degree: u64,
    terms: &[u8],
    which: u64,
    count: u64,
    sets: &[u8],
    out: &mut [u8; WIRES_BYTES],
) -> u64
    requires { set_bytes * count ≤ length sets.now }
    ensures { counted result out.new ≡ wiring_of (panel_of n marks degree) terms.now which count sets.now }
{
    buffer::clear(out);
    if which < 1 {
        return 0;
    }
    if count < which {
        return 0;
    }
    let at = SET_BYTES * (which as usize - 1);
    let end = at + SET_BYTES;
    let said = answers::wire(n, marks, degree, terms, &sets[at..end], out);
    let five = reply::numbers(said);
    five[2]
}

// Plans into the first bytes of `sets`, as many as the room that is asked for, or all that there are; and wires one of
// the sets that are found.
pub fn prepare(s: Settings, terms: &[u8], sets: &mut [u8], out: &mut [u8; WIRES_BYTES]) -> Prepared
    ensures { Prepares (fitted s (length sets.old)) terms.now result
        sets.old sets.new out.new }
{
    let room = s.room.min(sets.len() / SET_BYTES);
    let lent = SET_BYTES * room;
    let reply = plan::plan(
        s.n,
        s.marks,
        s.degree,
        s.cap,
        s.limit,
        terms,
        &mut sets[..lent],
    );
    let five = reply::numbers(reply);
    let wires = wire_set(
        s.n,
        s.marks,
        s.degree,
        terms,
        s.which,
        five[2],
        &sets[..lent],
        out,
    );
    Prepared { reply, lent, wires }
}

// Thins the given set into all of `sets`; and wires one of the subsets that are listed.
pub fn prepare_thin(
    n: u64,
    marks: u64,
    degree: u64,
    which: u64,
    terms: &[u8],
    set: &[u8],
    sets: &mut [u8],
    out: &mut [u8; WIRES_BYTES],
) -> Prepared
    ensures { PreparesThin (panel_of n marks degree) which terms.now set.now result
        sets.old sets.new out.new }
{
    let lent = sets.len();
    let reply = thinning::thin(n, marks, degree, terms, set, sets);
    let five = reply::numbers(reply);
    let wires = wire_set(n, marks, degree, terms, which, five[2], sets, out);
    Prepared { reply, lent, wires }
}

// Wires the given set, which its owner has: no sets are listed, and no buffer is lent for any.
pub fn prepare_wire(
    n: u64,
    marks: u64,
    degree: u64,
    terms: &[u8],
    set: &[u8],
    out: &mut [u8; WIRES_BYTES],
) -> Prepared
    ensures { (sets : List ℕ) → PreparesWire (panel_of n marks degree) terms.now set.now result sets sets out.new }
{
    let reply = answers::wire(n, marks, degree, terms, set, out);
    let five = reply::numbers(reply);
    let wires = five[2];
    Prepared {
        reply,
        lent: 0,
        wires,
    }
}
