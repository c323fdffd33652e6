// The roster of a listing: new names in whatever order an owner wrote them, and the set that they form.
//
// Rests on what the crates wiring and monomial promise.
#![tactic(auto)]

pub mod roster;
