// Document 01's program: its settings, and the buffer that it lends to planning.
ghost use Rattle.report.specs.Prepare.{Prepares};
ghost use Rattle.report.specs.Program.{program};

use super::prepare::{Prepared, Settings};
use super::{prepare, write};
use monomial::width::WIDTH;
use wiring::panel::{CARDS, FULL_DEGREE, SET_BYTES, WIRES_BYTES};

const LIMIT: u64 = 1000000;

const ROOM: usize = 1000;

pub const SETS_BYTES: usize = SET_BYTES * ROOM;

// Plans and wires as the program does.
pub fn prepare_program(
    terms: &[u8],
    sets: &mut [u8; SETS_BYTES],
    out: &mut [u8; WIRES_BYTES],
) -> Prepared
    ensures { Prepares program terms.now result sets.old sets.new out.new }
{
    let s = Settings {
        n: WIDTH as u64,
        marks: 0,
        degree: FULL_DEGREE,
        cap: CARDS as u64,
        limit: LIMIT,
        room: ROOM,
        which: 1,
    };
    prepare::prepare(s, terms, sets, out)
}

// Writes the lines of what was prepared.
pub fn write_program(p: Prepared, sets: &[u8; SETS_BYTES], wires: &[u8; WIRES_BYTES]) {
    write::write_lines(p, sets, wires);
}
