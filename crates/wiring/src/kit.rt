// The kit: which limits on the total degree of a new monomial it may have.
ghost use Rattle.std.specs.Prelude.{◌≡◌};
ghost use Rattle.wiring.specs.Kit.{degree_right};

use super::panel::{FULL_DEGREE, JUNIOR_LEAST, JUNIOR_MOST};

// Whether the limit is the full kit's, or one that a junior kit is printed with.
#[tactic(auto, unfolding(crate::specs::Kit::degree_right))]
pub(crate) fn degree_right(d: u64) -> bool
    ensures { result ≡ degree_right d }
{
    d == FULL_DEGREE || (JUNIOR_LEAST..=JUNIOR_MOST).contains(&d)
}
