// Derivatives and wiring: term and set records with their refusals, V and V2, nonsquares, verdict and wiring list in one, the reply.
//
// Rests on what the crate monomial promises. Every operation takes its bytes as they are and refuses what breaks a rule.
#![tactic(auto)]

pub mod answers;
pub mod buffer;
pub mod choice;
pub mod coefficient;
pub mod derivative;
pub mod held;
pub mod kit;
pub mod panel;
pub mod parts;
pub mod quadratic;
pub mod reply;
pub mod sets;
pub mod signals;
pub mod sockets;
pub mod system;
pub mod terms;
pub mod wires;
