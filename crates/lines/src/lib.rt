// Lines of text that the programs print, each in a line of 1,024 bytes, which is always enough; and numbers that they read.
// Nothing here reads or writes but `words`, which asks for the words of the command line, and `write`, which writes lines.
//
// Rests on what the crates wiring and monomial promise, and on the kit's decimal and hexadecimal digits.
#![tactic(auto)]

pub mod answer;
pub mod case;
mod digest;
pub mod lengths;
pub mod number;
pub mod text;
pub mod words;
pub mod write;
