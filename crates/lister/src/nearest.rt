// The cheap pairs of a monomial, by V: one of the two is in V, or they are one. So V and the root are gone through, and not the divisors.
ghost use Rattle.std.specs.Prelude.{◌≡◌, not, ◌&&◌, ℕ, ◌+◌, ◌/◌, ◌≤◌, T, length, get_or};
ghost use Rattle.monomial.specs.Monomial.{one, width};
ghost use Rattle.monomial.specs.Order.{before};
ghost use Rattle.monomial.specs.Quotient.{divides};
ghost use Rattle.monomial.specs.Divisors.{leads};
ghost use Rattle.wiring.specs.Signals.{signals_at};
ghost use Rattle.lister.specs.Nearest.{root_of, lead_of, asked, tried, ahead, Nearing, Nearest};

use super::cheap;
use super::cheap::Held;
use monomial::Monomial;
use monomial::width::WIDTH;
use wiring::signals::Members;

// The cheap pair that begins with a.
#[derive(Clone, Copy)]
pub struct Near {
    pub a: Monomial,
    pub held: Held,
}

// Every exponent halved: the root, where m is a square.
fn half(m: Monomial) -> Monomial
    ensures { result.e ≡ root_of m.e }
{
    Monomial {
        e: m.e.map(|e| e / 2),
    }
}

// The first of the pair of m that w is of. What divides nothing is taken for 1, which is the first of a pair too.
#[tactic(auto, unfolding(crate::specs::Nearest::lead_of))]
fn lead_of(w: Monomial, m: Monomial) -> Monomial
    ensures { result.e ≡ lead_of m.e w.e }
{
    if !w.divides(m) {
        return Monomial::ONE;
    }
    if w.leads(m) {
        return w;
    }
    m.over(w)
}

// By V and behind it the root, number j.
fn candidate(v: Members, m: Monomial, j: usize) -> Monomial
    requires few { v.n ≤ width }
    requires inside { j ≤ length (signals_at v.n v.set.now) }
    ensures { result.e ≡ lead_of m.e (get_or (asked (signals_at v.entry.n v.entry.set.now) m.e) j (one width)) }
{
    if j < v.len() {
        return lead_of(v.signal(j), m);
    }
    lead_of(half(m), m)
}

// Whether c stands before the nearest so far, if there is one.
#[tactic(auto, using(monomial::proofs::order::Derived::before_from_lt))]
fn is_ahead(c: Monomial, near: Option<Near>) -> bool
    ensures { result ≡ ahead c.e near }
{
    match near {
        None => true,
        Some(near) => c < near.a,
    }
}

// Whether c stands from a on, and before the nearest so far.
#[tactic(auto, using(monomial::proofs::order::Derived::not_before_from_le))]
fn is_nearer(c: Monomial, a: Monomial, near: Option<Near>) -> bool
    ensures { result ≡ not (before c.e a.e) && ahead c.e near }
{
    a <= c && is_ahead(c, near)
}

// The nearest so far, or c in its place where that begins a cheap pair and is nearer.
fn nearer(v: Members, m: Monomial, a: Monomial, near: Option<Near>, c: Monomial) -> Option<Near>
    requires divisor { T (divides c.e m.e) }
    requires leading { T (leads m.e c.e) }
    ensures { (j : ℕ) → Nearing (signals_at v.entry.n v.entry.set.now) m.e a.e near j → c.e ≡ tried (signals_at v.entry.n v.entry.set.now) m.e j →
        Nearing (signals_at v.entry.n v.entry.set.now) m.e a.e result (j + 1) }
{
    if !is_nearer(c, a, near) {
        return near;
    }
    let held = cheap::look_up(v, c, m.over(c));
    if !cheap::is_of(false, held) {
        return near;
    }
    Some(Near { a: c, held })
}

// The first cheap pair of m from a on.
#[tactic(auto, using(crate::proofs::nearest::Laws::lead_divides, crate::proofs::nearest::Laws::lead_leads))]
pub fn nearest(v: Members, m: Monomial, a: Monomial) -> Option<Near>
    requires { v.n ≤ width }
    ensures { Nearest (signals_at v.entry.n v.entry.set.now) m.e a.e result }
{
    let members = v.len();
    let mut near = None;
    for j in 0..members + 1 {
        near = nearer(v, m, a, near, candidate(v, m, j));
    }
    near
}
