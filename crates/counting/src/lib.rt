// What follows for an opened set below its level: its nonsquares, the one that is split, and the counting rule of document 001, section 5.1, which
// says whether they need more new monomials than there is room for.
//
// Rests on what the crates wiring and monomial promise. Nothing grows: the nonsquares lie in a list that is lent.
#![tactic(auto)]

pub mod counting;
pub mod gathering;
pub mod verdict;
