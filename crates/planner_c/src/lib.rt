// The firmware's door: planning, wiring, thinning and reading a listing for C, as include/planner.h declares them.
//
// Rests on what the crates desktop, thin, walk and wiring promise. Nothing is computed here: numbers and slices go in, and the reply goes out as five numbers.
#![tactic(auto)]

pub mod calls;
