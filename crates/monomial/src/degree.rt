// The degree of a monomial, and whether it is low: so few variables, of the first ones alone, multiply to it.
ghost use Rattle.std.specs.Prelude.{◌≡◌};
ghost use Rattle.monomial.specs.Degree.{degree, within, low};

use super::Monomial;
use super::width::WIDTH;

impl Monomial {
    // The sum of the exponents.
    pub fn degree(self) -> u64
        ensures { result ≡ degree self.e }
    {
        self.e.iter().map(|&x| u64::from(x)).sum()
    }

    // Whether self holds none of the variables behind the first n.
    fn is_within(self, n: usize) -> bool
        ensures { result ≡ within n self.e }
    {
        // No chain with skip, which was tried: it does not unroll, and takes a fifth longer.
        for i in n..WIDTH {
            if self.e[i] != 0 {
                return false;
            }
        }
        true
    }

    // Whether self is of the first n variables alone and its degree is below the bound. The degree is asked first: there most monomials fail.
    pub fn is_low(self, n: usize, bound: u64) -> bool
        ensures { result ≡ low n bound self.e }
    {
        if bound <= self.degree() {
            return false;
        }
        self.is_within(n)
    }
}
