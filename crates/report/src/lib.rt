// All that a program writes: plans or thins, and wires once, or wires a given set alone, and then gives the lines one
// by one. Only `write_lines` writes, and nothing reads.
//
// Rests on what the crates lines, thin, walk and wiring promise.
#![tactic(auto)]

pub mod line;
pub mod prepare;
pub mod program;
pub mod write;
