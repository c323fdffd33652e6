// The wiring list, judged and written in one pass: a record that has room is written, and a monomial that no two signals multiply to ends it.
ghost use Rattle.std.specs.Prelude.{◌≡◌, List, [], ◌∷◌, ◌++◌, ◌+◌, ◌*◌, ◌/◌, ◌≤◌, ◌<◌, length, get_or};
ghost use Rattle.std.proofs.Math.Seq.{paste};
ghost use Rattle.wiring.specs.Panel.{term_bytes, set_exponent, wire_bytes};
ghost use Rattle.wiring.specs.Poly.{plain, support};
ghost use Rattle.monomial.specs.Lists.{some, keep};
ghost use Rattle.monomial.specs.Product.{AtMost};
ghost use Rattle.wiring.specs.Derivative.{derivative, offers};
ghost use Rattle.wiring.specs.Signals.{Fitting, signals_of};
ghost use Rattle.wiring.specs.Terms.{record_at, records, system};
ghost use Rattle.wiring.specs.Wires.{Wire, wire_record, Sheet, Wrote, FirstPair, unmet_beyond, RowPassed, Passed};

use super::buffer;
use super::held::Signals;
use super::panel::WIRE_BYTES;
use super::system::System;
use monomial::Monomial;

// The numbers of two signals.
#[derive(Clone, Copy)]
pub struct Pair {
    pub a: usize,
    pub b: usize,
}

// The number of a left variable whose derivative is not met.
#[derive(Clone, Copy, Debug, PartialEq, Eq)]
pub struct Unmet {
    pub left: usize,
}

// The pair of smallest a, then smallest b, whose product is m, where there is one. Most signals do not divide m. That the signals fit stays a clause, here
// and below: held by Signals it would ask more of who calls signals_of.
pub fn pair_of(v: Signals, m: Monomial) -> Option<Pair>
    requires { Fitting set_exponent (signals_of v) }
    ensures { FirstPair (signals_of v) m.e result }
{
    let len = v.len;
    for a in 0..len {
        let x = v.m[a];
        if x.divides(m) {
            let rest = m.over(x);
            for b in a..len {
                let y = v.m[b];
                if y == rest {
                    return Some(Pair { a, b });
                }
            }
        }
    }
    None
}

// Writes record number at.
fn put_record(out: &mut [u8], at: usize, left: usize, p: Pair, c: i32)
    requires inside { wire_bytes * at + wire_bytes ≤ length out.old }
    requires left_small { left < 256 }
    requires a_small { p.a < 256 }
    requires b_small { p.b < 256 }
    ensures { out.new ≡ paste out.old (wire_bytes * at) (wire_record (record { left = left; a = p.a; b = p.b; coefficient = c })) wire_bytes }
{
    let [c0, c1, c2, c3] = c.to_le_bytes();
    let bytes = [left as u8, p.a as u8, p.b as u8, 0, c0, c1, c2, c3];
    buffer::put(out, WIRE_BYTES * at, &bytes);
}

// One record more behind the at records of the list: it is written where there is room. Given back is how far the list has come, and none where it is
// longer than the buffer holds.
fn enter(out: &mut [u8], at: usize, left: usize, p: Pair, c: i32) -> Option<usize>
    requires left_small { left < 256 }
    requires a_small { p.a < 256 }
    requires b_small { p.b < 256 }
    ensures { (done : List Wire) → Sheet done at out.old →
        Wrote (done ++ ((record { left = left; a = p.a; b = p.b; coefficient = c }) ∷ [])) result out.new }
{
    if out.len() / WIRE_BYTES <= at {
        return None;
    }
    put_record(out, at, left, p, c);
    Some(at + 1)
}

impl System<'_> {
    // Whether record t gives the derivative of z a monomial behind the last one that has a coefficient and no pair. The total, which is dear, is asked
    // last.
    fn lacks_pair_at(self, t: usize, v: Signals, z: Monomial, last: Option<Monomial>) -> bool
        requires inside { t < length self.terms.now / term_bytes }
        requires fits { Fitting set_exponent (signals_of v) }
        requires small { AtMost set_exponent z.e }
        ensures { result ≡ offers (unmet_beyond (signals_of v) last) (system (records self.entry.terms.now)) z.e (record_at self.entry.terms.now t) }
    {
        let Some(m) = self.following(t, z, last) else {
            return false;
        };
        if pair_of(v, m).is_some() {
            return false;
        }
        self.total(z, m) != 0
    }

    // Whether the derivative of z has a monomial behind the last one that no two signals multiply to. Where nothing is written any more, their order
    // does not matter.
    pub fn lacks_pair(self, v: Signals, z: Monomial, last: Option<Monomial>) -> bool
        requires fits { Fitting set_exponent (signals_of v) }
        requires small { AtMost set_exponent z.e }
        ensures { result ≡ some (keep (unmet_beyond (signals_of v) last) (support plain (derivative plain (system (records self.entry.terms.now)) z.e))) }
    {
        (0..self.count()).any(|t| self.lacks_pair_at(t, v, z, last))
    }

    // Passes over the derivative of one left variable: its records go behind those of the list so far. Without room the rest of it is only judged.
    fn wire_row(
        self,
        v: Signals,
        left: usize,
        out: &mut [u8],
        from: Option<usize>,
    ) -> Result<Option<usize>, Unmet>
        requires inside { left < v.len }
        requires fits { Fitting set_exponent (signals_of v) }
        ensures { (done : List Wire) → Wrote done from out.old →
            RowPassed plain (signals_of v) left (derivative plain (system (records self.entry.terms.now)) (get_or (signals_of v) left [])) done result out.new }
    {
        let z = v.m[left];
        let mut w = from;
        let mut last = None;
        while let Some(at) = w {
            let Some(part) = self.next_part(z, last) else {
                return Ok(w);
            };
            let Some(pair) = pair_of(v, part.m) else {
                return Err(Unmet { left });
            };
            w = enter(out, at, left, pair, part.total);
            last = Some(part.m);
        }
        if self.lacks_pair(v, z, last) {
            return Err(Unmet { left });
        }
        Ok(None)
    }

    // Passes over the left variables, ascending: how far the list has come, and none where it is longer than the buffer holds; or the first left variable
    // whose derivative is not met. Without room it goes on judging: that a set is not quadratic comes before that its list is too long.
    pub(crate) fn wire_rows(self, v: Signals, out: &mut [u8]) -> Result<Option<usize>, Unmet>
        requires fits { Fitting set_exponent (signals_of v) }
        requires blank { Sheet [] 0 out.old }
        ensures { Passed plain (signals_of v) (derivative plain (system (records self.entry.terms.now))) result out.new }
    {
        let mut w = Some(0);
        for left in 0..v.len {
            w = self.wire_row(v, left, out, w)?;
        }
        Ok(w)
    }
}
