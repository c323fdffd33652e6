// Quotients of monomials.
ghost use Rattle.std.specs.Prelude.{◌≡◌, T};
ghost use Rattle.monomial.specs.Quotient.{quo, divides};

use super::Monomial;
use std::array;

impl Monomial {
    // self divided by a monomial that divides it.
    pub fn over(self, other: Monomial) -> Monomial
        requires { T (divides other.e self.e) }
        ensures { result.e ≡ quo self.e other.e }
    {
        Monomial {
            e: array::from_fn(|i| self.e[i] - other.e[i]),
        }
    }

    // Whether self divides other.
    pub fn divides(self, other: Monomial) -> bool
        ensures { result ≡ divides self.e other.e }
    {
        self.e.iter().zip(&other.e).all(|(x, y)| x <= y)
    }
}
