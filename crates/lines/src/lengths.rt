// How long a line is, and a buffer that is written byte by byte.

pub const LINE_BYTES: usize = 1024;

// A number below 2^64 in decimal.
pub(crate) const NUMBER_BYTES: usize = 20;

// A longer buffer goes by its digest.
pub(crate) const SHOWN_BYTES: usize = 72;
