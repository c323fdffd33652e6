// The width of a monomial.

// Variables: each has an exponent.
pub const WIDTH: usize = 6;

// The named constants: 1 and the single variables.
pub const CONSTANTS: usize = 1 + WIDTH;
