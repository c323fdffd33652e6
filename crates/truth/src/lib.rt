// Whether the lines of a listing are true: a line, multiplied out, against the derivative of its signal.
#![tactic(auto)]

pub mod truth;
