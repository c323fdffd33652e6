// The listing that the desktop tool prints, written: its lines one by one.
//
// Rests on the crate lines, whose pieces of text it puts one behind the other, and on the grammar's words for a listing.
#![tactic(auto)]

pub mod typed;
