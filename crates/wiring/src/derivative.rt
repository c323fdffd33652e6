// Derivatives of monomials, record by record: no list of terms is kept.
ghost use Rattle.std.specs.Prelude.{◌≡◌, false, ◌/◌, ◌<◌, length};
ghost use Rattle.monomial.specs.Product.{AtMost};
ghost use Rattle.wiring.specs.Panel.{term_bytes, set_exponent};
ghost use Rattle.wiring.specs.Poly.{plain, coeff};
ghost use Rattle.wiring.specs.Derivative.{derivative, power, image, crosses, Uncancelled};
ghost use Rattle.wiring.specs.Terms.{record_at, records, system};

use super::system::System;
use monomial::Monomial;

impl System<'_> {
    // The exponent in z of the variable of record t.
    pub(crate) fn power(self, t: usize, z: Monomial) -> u8
        requires { t < length self.terms.now / term_bytes }
        ensures { result ≡ power (record_at self.entry.terms.now t) z.e }
    {
        let i = self.equation(t) - 1;
        let e = z.e;
        e[i]
    }

    // The monomial of record t in the derivative of z: z divided by the record's variable, times the record's monomial.
    pub(crate) fn image(self, t: usize, z: Monomial) -> Monomial
        requires inside { t < length self.terms.now / term_bytes }
        requires raised { 0 < power (record_at self.terms.now t) z.e }
        requires small { AtMost 200 z.e }
        ensures { result.e ≡ image (record_at self.entry.terms.now t) z.e }
    {
        let i = self.equation(t) - 1;
        let mut e = z.e;
        e[i] = e[i] - 1;
        Monomial::of(e).times(self.monomial(t))
    }

    // The total coefficient of m in the derivative of z. That the exponents of z are small stays a clause, here and above: a type for z would be filled and
    // opened at each call, which is no plainer.
    pub fn total(self, z: Monomial, m: Monomial) -> i32
        requires { AtMost set_exponent z.e }
        ensures { result ≡ coeff plain (derivative plain (system (records self.entry.terms.now)) z.e) m.e }
    {
        let mut sum: i32 = 0;
        for t in 0..self.count() {
            let k = self.power(t, z);
            if 0 < k && self.image(t, z) == m {
                sum += i32::from(k) * self.coefficient(t);
            }
        }
        sum
    }

    // Whether records t and u, of two equations, give one monomial wherever both give one: each times the variable of the other is the same.
    fn crosses(self, t: usize, u: usize) -> bool
        requires one { t < length self.terms.now / term_bytes }
        requires other { u < length self.terms.now / term_bytes }
        ensures { result ≡ crosses (record_at self.entry.terms.now t) (record_at self.entry.terms.now u) }
    {
        let a = self.equation(t);
        let b = self.equation(u);
        if a == b {
            return false;
        }
        let x = self.monomial(t).times(Monomial::constant(b));
        let y = self.monomial(u).times(Monomial::constant(a));
        x == y
    }

    // Whether some total may be 0: only where two records cross. Where none do, each monomial that a record gives has a coefficient, and no total need
    // be summed to know it.
    pub fn may_cancel(self) -> bool
        ensures { result ≡ false → Uncancelled self.entry.terms.now }
    {
        for t in 0..self.count() {
            for u in 0..t {
                if self.crosses(t, u) {
                    return true;
                }
            }
        }
        false
    }
}
