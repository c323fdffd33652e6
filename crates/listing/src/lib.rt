// The listing that the desktop tool prints: what its reader is told, its lines, the machine that reads it, and what its bytes say.
//
// Rests on the crate reader, which has what a machine of this kind reads and where it stops.
#![tactic(auto)]

pub mod known;
pub mod lines;
pub mod machine;
pub mod saying;
