// Thinning: the smallest quadratic subsets of a set that an owner made by hand, all of them, in the lent buffer.
//
// Rests on what the crates walk, roster, wiring and monomial promise. Each subset is judged once; nothing grows with their number.
#![tactic(auto)]

pub mod subsets;
pub mod thin;
