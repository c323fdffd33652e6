// The monomials of a derivative, one after the other: no list of them is kept, and each total is summed once.
ghost use Rattle.std.specs.Prelude.{◌≡◌, ◌/◌, ◌<◌, length, IfSome};
ghost use Rattle.std.specs.Option.{option_map};
ghost use Rattle.monomial.specs.Lists.{keep};
ghost use Rattle.monomial.specs.Product.{AtMost};
ghost use Rattle.wiring.specs.Panel.{term_bytes, set_exponent};
ghost use Rattle.wiring.specs.Poly.{plain, coeff, support};
ghost use Rattle.wiring.specs.Derivative.{derivative, image, gives, images};
ghost use Rattle.wiring.specs.Terms.{record_at, records, system};
ghost use Rattle.wiring.specs.Choice.{Heads, beyond, Offered};

use super::choice;
use super::system::System;
use monomial::Monomial;

// A monomial of a derivative with its total.
#[derive(Clone, Copy)]
pub struct Part {
    pub m: Monomial,
    pub total: i32,
}

// Whether m stands behind the last one; everything does behind none.
fn is_beyond(last: Option<Monomial>, m: Monomial) -> bool
    ensures { result ≡ beyond last m.e }
{
    match last {
        Some(last) => last < m,
        None => true,
    }
}

impl System<'_> {
    // The monomial of record t in the derivative of z, where it stands behind the last one. Its total is not asked here: it may be 0.
    pub(crate) fn following(self, t: usize, z: Monomial, last: Option<Monomial>) -> Option<Monomial>
        requires inside { t < length self.terms.now / term_bytes }
        requires small { AtMost set_exponent z.e }
        ensures { Offered (gives (beyond last) z.e (record_at self.entry.terms.now t)) (image (record_at self.entry.terms.now t) z.e) result }
    {
        if self.power(t, z) < 1 {
            return None;
        }
        let m = self.image(t, z);
        if !is_beyond(last, m) {
            return None;
        }
        Some(m)
    }

    // The smallest monomial behind the last one that a record gives to the derivative of z.
    fn next_image(self, z: Monomial, last: Option<Monomial>) -> Option<Monomial>
        requires { AtMost set_exponent z.e }
        ensures { Heads (keep (beyond last) (images (records self.entry.terms.now) z.e)) result }
    {
        let mut best = None;
        for t in 0..self.count() {
            if let Some(m) = self.following(t, z, last) {
                best = choice::least(best, m);
            }
        }
        best
    }

    // The smallest monomial of the derivative of z behind the last one. Those whose parts cancel are passed over.
    pub(crate) fn next_part(self, z: Monomial, last: Option<Monomial>) -> Option<Part>
        requires { AtMost set_exponent z.e }
        ensures heads { Heads (keep (beyond last) (support plain (derivative plain (system (records self.entry.terms.now)) z.e))) (option_map (λ part. part.m) result) }
        ensures total_value { IfSome result (λ part. part.total ≡ coeff plain (derivative plain (system (records self.entry.terms.now)) z.e) part.m.e) }
    {
        let mut behind = last;
        while let Some(m) = self.next_image(z, behind) {
            let total = self.total(z, m);
            if total != 0 {
                return Some(Part { m, total });
            }
            behind = Some(m);
        }
        None
    }
}
