// The lister of factor pairs: which pairs of a nonsquare come first, by what they add to V.
//
// Rests on what the crates wiring and monomial promise. No table of pairs is kept: the cheap ones are found by going through the divisors, or through V
// where m has many, and the rest by going through the divisors.
#![tactic(auto)]

pub mod cheap;
pub mod nearest;
pub mod passes;
