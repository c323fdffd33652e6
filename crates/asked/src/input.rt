// The input: term records, and before them a set record where one is given. One byte more than can be right is read,
// which tells that there are more.
ghost use Rattle.std.specs.Prelude.{◌≡◌, ◌≤◌};
ghost use Rattle.io.specs.Counts.{IsPrefixLen};
ghost use Rattle.wiring.specs.Panel.{set_bytes};
ghost use Rattle.asked.specs.Input.{given_bytes, most_input};

use super::settings::Asked;
use wiring::panel::{SET_BYTES, TERMS_BYTES};

// A buffer for the most input.
pub(crate) const INPUT_BYTES: usize = SET_BYTES + TERMS_BYTES + 1;

// How many bytes stand before the terms: a set record to be thinned or wired, or nothing.
pub(crate) fn given_bytes(a: Option<Asked>) -> usize
    ensures value { result ≡ given_bytes a }
    ensures upper_bound { result ≤ set_bytes }
{
    match a {
        Some(Asked::Thin { .. }) => SET_BYTES,
        Some(Asked::Wire { .. }) => SET_BYTES,
        Some(Asked::Plan(_)) => 0,
        None => 0,
    }
}

// Reads into the front of a buffer, and gives the number of bytes.
pub(crate) fn read_input(a: Option<Asked>, input: &mut [u8]) -> usize
    ensures prefix_len { IsPrefixLen result input.new }
    ensures upper_bound { result ≤ most_input a }
{
    let right = given_bytes(a) + TERMS_BYTES;
    let most = (right + 1).min(input.len());
    io::read_full(0, &mut input[..most])
}
