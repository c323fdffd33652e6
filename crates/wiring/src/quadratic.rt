// Nonsquares of a set whose monomials lie side by side: what a record gives, and whether there are any.
ghost use Rattle.std.specs.Prelude.{◌≡◌, not, ◌/◌, ◌≤◌, ◌<◌, length};
ghost use Rattle.monomial.specs.Lists.{some};
ghost use Rattle.monomial.specs.Monomial.{width};
ghost use Rattle.monomial.specs.Product.{AtMost};
ghost use Rattle.wiring.specs.Panel.{term_bytes, set_exponent};
ghost use Rattle.wiring.specs.Poly.{plain};
ghost use Rattle.wiring.specs.Derivative.{derivative, image, offers};
ghost use Rattle.wiring.specs.Quadratic.{in_v2, lacking, nonsquares};
ghost use Rattle.wiring.specs.Signals.{Fitting, signals_at};
ghost use Rattle.wiring.specs.Terms.{record_at, records, system};
ghost use Rattle.wiring.specs.Choice.{Offered};

use super::signals::Members;
use super::system::System;
use monomial::Monomial;

impl System<'_> {
    // The monomial of record t in the derivative of z, where it has a coefficient and is not in V2 of the set. The total, which is dear, is asked last,
    // and only where it may be 0.
    pub fn nonsquare_of(self, t: usize, z: Monomial, v: Members) -> Option<Monomial>
        requires inside { t < length self.terms.now / term_bytes }
        requires small { AtMost set_exponent z.e }
        ensures { Offered (offers (λ m. not (in_v2 plain (signals_at v.entry.n v.entry.set.now) m)) (system (records self.entry.terms.now)) z.e (record_at self.entry.terms.now t)) (image (record_at self.entry.terms.now t) z.e) result }
    {
        if self.power(t, z) < 1 {
            return None;
        }
        let m = self.image(t, z);
        if v.is_square(m) {
            return None;
        }
        if self.cancels && self.total(z, m) == 0 {
            return None;
        }
        Some(m)
    }

    // Whether the derivative of z has a monomial that is not in V2 of the set.
    fn has_nonsquare(self, z: Monomial, v: Members) -> bool
        requires { AtMost set_exponent z.e }
        ensures { result ≡ lacking plain (signals_at v.entry.n v.entry.set.now) (derivative plain (system (records self.entry.terms.now)) z.e) }
    {
        (0..self.count()).any(|t| self.nonsquare_of(t, z, v).is_some())
    }

    // Whether the set has a nonsquare. The signals are asked from the last: the newest ones have most.
    pub fn is_unmet(self, v: Members) -> bool
        requires few { v.n ≤ width }
        requires fits { Fitting set_exponent (signals_at v.n v.set.now) }
        ensures { result ≡ some (nonsquares plain (signals_at v.entry.n v.entry.set.now) (derivative plain (system (records self.entry.terms.now)))) }
    {
        for j in (0..v.len()).rev() {
            if self.has_nonsquare(v.signal(j), v) {
                return true;
            }
        }
        false
    }
}
