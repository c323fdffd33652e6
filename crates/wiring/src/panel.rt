// The numbers of the panel, each once: what follows from another is computed from it. And the settings that it is asked with.
use monomial::width::{CONSTANTS, WIDTH};

// Integrator cards: so many new monomials has a set.
pub const CARDS: usize = 6;

// A term record: where its monomial and its coefficient stand, its bytes, how many there may be and their bytes, its largest exponent and
// coefficient.
pub const MONOMIAL_AT: usize = 2;

pub const COEFFICIENT_AT: usize = MONOMIAL_AT + WIDTH;

pub const TERM_BYTES: usize = COEFFICIENT_AT + 4;

pub const MOST_TERMS: usize = 32;

pub const TERMS_BYTES: usize = TERM_BYTES * MOST_TERMS;

pub const TERM_EXPONENT: u8 = 9;

pub const MOST_COEFFICIENT: i32 = 1000000;

pub const LEAST_COEFFICIENT: i32 = -MOST_COEFFICIENT;

// A set record: its bytes and its largest exponent.
pub const SET_BYTES: usize = WIDTH * CARDS;

pub const SET_EXPONENT: u8 = TERM_EXPONENT * CARDS as u8;

// The signals of a set: 1, the variables, the new monomials.
pub const MOST_SIGNALS: usize = CONSTANTS + CARDS;

// A wiring record: its bytes, how many a list may have and their bytes.
pub const WIRE_BYTES: usize = 8;

pub const MOST_WIRES: usize = (1 + CARDS) * MOST_TERMS;

pub const WIRES_BYTES: usize = WIRE_BYTES * MOST_WIRES;

// The limits on the total degree of a new monomial: the least and the highest that a junior kit is printed with, and the full kit's, which no monomial of
// a set record passes.
pub const JUNIOR_LEAST: u64 = 2;

pub const JUNIOR_MOST: u64 = 9;

pub const FULL_DEGREE: u64 = WIDTH as u64 * SET_EXPONENT as u64;

// The highest limit of steps.
pub const MOST_STEPS: u64 = 1000000000;

// The settings travel together: how many variables there are, which of them are signals fed from outside, bit i - 1 for xi, and the kit's limit on the
// total degree of a new monomial.
#[derive(Clone, Copy)]
pub struct Panel {
    pub n: usize,
    pub marks: u64,
    pub degree: u64,
}
