// Monomials: six exponents held by value, their constants, order, products and divisors.
//
// Each contract cites one definition of specs/ over lists of exponents of any length; the array of the struct is such a list.
// Nothing is assumed of an exponent but that it is a byte.
#![tactic(auto)]

pub mod bytes;
pub mod degree;
pub mod divisors;
pub mod order;
pub mod product;
pub mod quotient;
pub mod width;

ghost use Rattle.std.specs.Prelude.{◌≡◌, get_or};
ghost use Rattle.monomial.specs.Monomial.{one, constants, width};

use width::{CONSTANTS, WIDTH};

#[derive(Clone, Copy)]
pub struct Monomial {
    pub e: [u8; WIDTH],
}

impl Monomial {
    pub const ONE: Monomial = Monomial {
        e: [0, 0, 0, 0, 0, 0],
    };

    pub const X1: Monomial = Monomial {
        e: [1, 0, 0, 0, 0, 0],
    };

    pub const X2: Monomial = Monomial {
        e: [0, 1, 0, 0, 0, 0],
    };

    pub const X3: Monomial = Monomial {
        e: [0, 0, 1, 0, 0, 0],
    };

    pub const X4: Monomial = Monomial {
        e: [0, 0, 0, 1, 0, 0],
    };

    pub const X5: Monomial = Monomial {
        e: [0, 0, 0, 0, 1, 0],
    };

    pub const X6: Monomial = Monomial {
        e: [0, 0, 0, 0, 0, 1],
    };

    // By their signal numbers.
    const NAMED: [Monomial; CONSTANTS] = [
        Monomial::ONE,
        Monomial::X1,
        Monomial::X2,
        Monomial::X3,
        Monomial::X4,
        Monomial::X5,
        Monomial::X6,
    ];

    // The monomial with these exponents.
    pub fn of(e: [u8; WIDTH]) -> Monomial
        ensures { result.e ≡ e }
    {
        Monomial { e }
    }

    // The constant of a signal number: 1 for 0, then x1 to x6; 1 again for a number that no variable has.
    pub fn constant(i: usize) -> Monomial
        ensures { result.e ≡ get_or (constants width) i (one width) }
    {
        Monomial::NAMED.get(i).copied().unwrap_or(Monomial::ONE)
    }
}
