// Document 01's program: reads term records, plans and wires once, and writes the lines of the report.
#![tactic(auto)]

use report::program;
use wiring::panel::{TERMS_BYTES, WIRES_BYTES};

fn main() {
    // One byte more than can be right tells that there are more.
    let mut input = [0u8; TERMS_BYTES + 1];
    let n = io::read_full(0, &mut input);
    let mut sets = [0u8; program::SETS_BYTES];
    let mut wires = [0u8; WIRES_BYTES];
    let p = program::prepare_program(&input[..n], &mut sets, &mut wires);
    program::write_program(p, &sets, &wires);
}
