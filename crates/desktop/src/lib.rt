// Reading what the desktop tool prints: the new names of a listing and the set that they form, and the truth of its lines.
//
// Rests on the crates listing, roster and truth.
#![tactic(auto)]

pub mod lines;
pub mod names;
pub mod read;
