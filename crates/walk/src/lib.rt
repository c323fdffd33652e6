// The walk: planning. Level by level, sets are opened and their nonsquares split, and the finds are listed in the lent buffer.
//
// Rests on what the crates lister, counting, wiring and monomial promise. No list grows with the walk: the state is a few numbers, a set for each level of its
// depth, and one list of nonsquares that is lent to each set in turn.
#![tactic(auto)]

pub mod children;
pub mod listing;
pub mod plan;
pub mod walk;
