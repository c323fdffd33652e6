// The score of a monomial, and its divisors one after the other.
ghost use Rattle.std.specs.Prelude.{◌≡◌, ◌<◌, T};
ghost use Rattle.monomial.specs.Quotient.{divides};
ghost use Rattle.monomial.specs.Divisors.{score, leads, next};

use super::Monomial;
use super::width::WIDTH;

impl Monomial {
    // The product of (exponent + 1): as many monomials divide self.
    pub fn score(self) -> u64
        ensures { result ≡ score self.e }
    {
        let mut r = 1;
        for &x in &self.e {
            r = (u64::from(x) + 1) * r;
        }
        r
    }

    // Whether self, a divisor of m, is the first of its factor pair: self <= m / self.
    pub fn leads(self, m: Monomial) -> bool
        requires { T (divides self.e m.e) }
        ensures { result ≡ leads m.e self.e }
    {
        self <= m.over(self)
    }

    // The divisor of m after self, in the order; 1 after the last.
    pub fn next_divisor(self, m: Monomial) -> Monomial
        ensures { result.e ≡ next m.e self.e }
    {
        let mut e = self.e;
        for i in (0..WIDTH).rev() {
            if e[i] < m.e[i] {
                e[i] += 1;
                break;
            }
            e[i] = 0;
        }
        Monomial { e }
    }
}
