// The nonsquares of a set, each once, in a lent list: side by side, in the order in which they are met.
//
// One list serves the counting rule, which asks how many they are and what each leaves, and the split, which takes the cheapest.
ghost use Rattle.std.specs.Prelude.{◌≡◌, false, ◌∷◌, ◌++◌, ◌*◌, ◌≤◌, length};
ghost use Rattle.monomial.specs.Monomial.{width};
ghost use Rattle.monomial.specs.Product.{AtMost};
ghost use Rattle.wiring.specs.Panel.{set_exponent};
ghost use Rattle.wiring.specs.Poly.{plain};
ghost use Rattle.wiring.specs.Derivative.{derivative, Uncancelled};
ghost use Rattle.wiring.specs.Quadratic.{unmet, nonsquares};
ghost use Rattle.wiring.specs.Signals.{Fitting, tabled, listed, signals_at};
ghost use Rattle.wiring.specs.Terms.{records, system, CleanTerms};
ghost use Rattle.wiring.specs.Choice.{cheaper, Best};
ghost use Rattle.counting.specs.Gathering.{Lent, Notes, Gathers};

use monomial::Monomial;
use monomial::width::WIDTH;
use wiring::signals::Members;
use wiring::system::System;
use wiring::{choice, signals};

// The list with m in it, once: how many it lists then; none, where they are more than it may hold. The list is lent to one set after the other, in fixed memory,
// so its length goes beside it.
fn note(list: &mut [u8], len: usize, most: usize, m: Monomial) -> Option<usize>
    requires { Lent most len list.old }
    ensures { Notes (m.e ∷ listed len list.old) most result list.new }
{
    if signals::is_among(&list[..WIDTH * len], m) {
        return Some(len);
    }
    if most <= len {
        return None;
    }
    m.write(list, WIDTH * len);
    Some(len + 1)
}

// The list, once the nonsquares of the derivative of z are met too.
fn gather_in(
    s: System,
    list: &mut [u8],
    len: usize,
    most: usize,
    z: Monomial,
    v: Members,
) -> Option<usize>
    requires small { AtMost set_exponent z.e }
    requires lent { Lent most len list.old }
    ensures { Notes (unmet plain (signals_at v.entry.n v.entry.set.now) (derivative plain (system (records s.entry.terms.now)) z.e) ++ listed len list.old) most result list.new }
{
    let mut held = len;
    for t in 0..s.count() {
        if let Some(m) = s.nonsquare_of(t, z, v) {
            held = note(list, held, most, m)?;
        }
    }
    Some(held)
}

// The nonsquares of a set in the list, and how many they are; none, where they are more than it may hold. The signals are asked from the last: the newest
// ones have most. Those of the set and those before them are asked in two loops: so what asks one of them stays out of the opener's frame.
pub fn gather(s: System, list: &mut [u8], v: Members, most: usize) -> Option<usize>
    requires few { v.n ≤ width }
    requires fits { Fitting set_exponent (signals_at v.n v.set.now) }
    requires room { width * most ≤ length list.old }
    ensures { Gathers most (nonsquares plain (signals_at v.entry.n v.entry.set.now) (derivative plain (system (records s.entry.terms.now)))) result list.new }
{
    let mut len: usize = 0;
    for i in (0..v.order()).rev() {
        let z = Monomial::read(v.set, WIDTH * i);
        len = gather_in(s, list, len, most, z, v)?;
    }
    for j in (0..v.n + 1).rev() {
        let z = Monomial::constant(j);
        len = gather_in(s, list, len, most, z, v)?;
    }
    Some(len)
}

// The monomial of a list that is split: the cheapest.
pub fn cheapest_of(list: &[u8]) -> Option<Monomial>
    ensures { Best cheaper (tabled list.now) result }
{
    let mut best = None;
    for i in 0..list.len() / WIDTH {
        best = choice::cheapest(best, Monomial::read(list, WIDTH * i));
    }
    best
}
