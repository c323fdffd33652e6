// Products of monomials.
ghost use Rattle.std.specs.Prelude.{◌≡◌};
ghost use Rattle.monomial.specs.Product.{mul, FitsBytes};

use super::Monomial;
use std::array;

impl Monomial {
    pub fn times(self, other: Monomial) -> Monomial
        requires { FitsBytes (mul self.e other.e) }
        ensures { result.e ≡ mul self.e other.e }
    {
        Monomial {
            e: array::from_fn(|i| self.e[i] + other.e[i]),
        }
    }
}
