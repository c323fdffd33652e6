// A set of new monomials, and the signals of a set, held by value.
ghost use Rattle.std.specs.Prelude.{◌≤◌};
ghost use Rattle.wiring.specs.Panel.{cards, most_signals};

use super::panel::{CARDS, MOST_SIGNALS};
use monomial::Monomial;

// At most as many monomials as there are cards. An array and a length, here and below: there is no heap, and a copy of a vector in fixed memory can fail, which
// no operation may.
#[derive(Clone, Copy)]
pub struct Set {
    pub m: [Monomial; CARDS],
    pub len: usize,
    pub ghost few: { len ≤ cards },
}

impl Set {
    pub const EMPTY: Set = Set {
        m: [Monomial::ONE; CARDS],
        len: 0,
    };
}

// 1, the variables, the new monomials.
#[derive(Clone, Copy)]
pub struct Signals {
    pub m: [Monomial; MOST_SIGNALS],
    pub len: usize,
    pub ghost few: { len ≤ most_signals },
}
