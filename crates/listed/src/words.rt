// The words of the command line, each a number.
ghost use Rattle.std.specs.Prelude.{◌≡◌};
ghost use Rattle.listed.specs.Words.{setting_of};

use lines::words;
use std::env::Env;

// A word that is no number counts as 2^64 - 1. No setting is that, so that the operations refuse it by code 1; and no
// input has so many bytes, so that all of it is term records.
fn setting_of(x: Option<u64>) -> u64
    ensures { result ≡ setting_of x }
{
    x.unwrap_or(u64::MAX)
}

// Word number i of the command line. One that is over 4,096 bytes is no number.
pub(crate) fn word_at<R: Env>(rt: &R, i: usize) -> u64 {
    setting_of(words::number_at(rt, i))
}
