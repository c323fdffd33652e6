// The lines of the second part: which signal's derivative each tells, and how a signal is written.
ghost use Rattle.std.specs.Prelude.{◌≡◌, ◌+◌, ◌≤◌, slice_get, unwrap_or, IfSome};
ghost use Rattle.listing.specs.Lines.{lefts, left_of, letter_of, digit_of};

use super::known::Known;

// The signal whose derivative is told on a line, from 0; none behind the last.
pub fn left_of(known: Known, names: u64, line: u64) -> Option<u64>
    requires few { known.n ≤ 9 }
    requires low { names ≤ 9 }
    ensures told { result ≡ slice_get (lefts known names) line }
    ensures number { unwrap_or result 0 ≡ left_of known names line }
    ensures within { IfSome result (λ signal. (1 ≤ signal) × (signal ≤ known.n + names)) }
{
    let mut marks = known.marks;
    let mut more = line;
    for i in 1..known.n + 1 {
        if marks % 2 == 0 {
            if more == 0 {
                return Some(i);
            }
            more -= 1;
        }
        marks /= 2;
    }
    if more < names {
        Some(known.n + 1 + more)
    } else {
        None
    }
}

#[tactic(auto, unfolding(crate::specs::Lines::letter_of))]
pub fn letter_of(known: Known, signal: u64) -> u8
    ensures { result ≡ letter_of known signal }
{
    if signal <= known.n { b'x' } else { b'w' }
}

#[tactic(auto, unfolding(crate::specs::Lines::digit_of))]
pub fn digit_of(known: Known, signal: u64) -> u8
    requires { signal ≤ 18 }
    ensures { result ≡ digit_of known signal }
{
    if signal <= known.n {
        b'0' + signal as u8
    } else {
        b'0' + (signal - (known.n + 1)) as u8
    }
}
