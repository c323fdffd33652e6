// The words of a command line. What they are is the system's to say, and no contract speaks of it.
ghost use Rattle.std.specs.Prelude.{◌≤◌};

use super::number;
use std::env::{Env, FillError};

// A longer word is taken for none.
const WORD_BYTES: usize = 4096;

fn has_word<R: Env>(rt: &R, i: usize) -> bool {
    !matches!(rt.arg(i, &mut []), Err(FillError::NotPresent))
}

// How many words there are, the program's name among them; `most` where there are more.
pub fn count_words<R: Env>(rt: &R, most: usize) -> usize
    ensures { result ≤ most }
{
    (0..most).take_while(|&i| has_word(rt, i)).count()
}

// Word number i, read as a number; the program's name has number 0. One that is missing or over 4,096 bytes is no number.
pub fn number_at<R: Env>(rt: &R, i: usize) -> Option<u64> {
    let mut word = [0u8; WORD_BYTES];
    let length = rt.arg(i, &mut word).ok()?;
    number::number_of(&word[..length])
}
