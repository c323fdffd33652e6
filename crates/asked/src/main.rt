// Document 01's program with settings as arguments: plans, or thins a given set, and wires once; or judges and wires a
// given set; and writes the lines of the report.
//
//     asked N MARKS DEGREE K LIMIT SETS WHICH < term-records    plans
//     asked N MARKS DEGREE WHICH < set-record term-records      thins
//     asked N MARKS DEGREE < set-record term-records            wires
#![tactic(auto)]

mod answer;
mod input;
mod settings;

use wiring::panel::WIRES_BYTES;

fn main(rt: HostRuntime) {
    let a = settings::read(&rt);
    let mut bytes = [0u8; input::INPUT_BYTES];
    let n = input::read_input(a, &mut bytes);
    let mut sets = answer::large_buffer();
    let mut wires = [0u8; WIRES_BYTES];
    let p = answer::prepare_asked(a, &bytes[..n], &mut sets, &mut wires);
    answer::write_asked(p, &sets, &wires);
}
