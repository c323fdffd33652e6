// The factor pairs of a nonsquare, one after the other: first those that add a single monomial to V, by ascending m1, then the rest likewise.
ghost use Rattle.std.specs.Prelude.{◌≡◌, true, false, ◌≤◌, ◌-◌, length};
ghost use Rattle.monomial.specs.Monomial.{one, width};
ghost use Rattle.monomial.specs.Divisors.{pairs, next};
ghost use Rattle.wiring.specs.Signals.{signals_at};
ghost use Rattle.lister.specs.Passes.{Proper, Standing, Starting, Sought, Found};

use super::cheap::Held;
use super::{cheap, nearest};
use monomial::Monomial;
use wiring::signals::Members;

// Of more pairs V is asked which are cheap; up to so many are gone through sooner.
pub const FEW: u64 = 32;

// Where the lister stands: among the cheap pairs or the rest, at a divisor, with so many of that kind listed. many: the cheap ones are found by V. Which kind is
// a flag, as `of_kind` and all that is said of pairs has it.
#[derive(Clone, Copy)]
pub struct Place {
    pub rest: bool,
    pub many: bool,
    pub a: Monomial,
    pub listed: u64,
}

// The pair in hand, which begins with the divisor of its place and is the last that is listed, by what V holds of it; or none, and the place where the
// pass has ended.
#[derive(Clone, Copy)]
pub struct Hand {
    pub at: Place,
    pub held: Option<Held>,
}

// So many pairs has m: of two divisors one leads, and the root of a square by itself.
#[tactic(auto, using(monomial::proofs::divisors::Count::pairs_count))]
fn count(m: Monomial) -> u64
    ensures { result ≡ length (pairs m.e) }
{
    m.score().div_ceil(2)
}

// The place before the first pair.
pub fn start(m: Monomial) -> Place
    ensures { Starting result }
{
    Place {
        rest: false,
        many: FEW < count(m),
        a: Monomial::ONE,
        listed: 0,
    }
}

// The place behind the pair in hand.
pub fn behind(m: Monomial, at: Place) -> Place
    ensures rest { result.rest ≡ at.rest }
    ensures next { result.a.e ≡ next m.e at.a.e }
    ensures listed { result.listed ≡ at.listed }
{
    Place {
        a: at.a.next_divisor(m),
        ..at
    }
}

// The pairs that are left of m once so many are listed.
pub fn left(m: Monomial, listed: u64) -> u64
    requires { listed ≤ length (pairs m.e) }
    ensures { result ≡ length (pairs m.e) - listed }
{
    count(m) - listed
}

// Goes through the pairs from a place on, to the first of its kind. That the place is one on the way stays a clause, here and below: it is a fact of V, m and the
// place together, which no one value carries.
fn seek(v: Members, m: Monomial, from: Place) -> Hand
    requires proper { Proper m.e }
    requires stands { Standing (signals_at v.n v.set.now) m.e from.rest from.a.e from.listed }
    ensures { Sought (signals_at v.entry.n v.entry.set.now) m.e from result }
{
    let mut a = from.a;
    while a.leads(m) {
        let held = cheap::look_up(v, a, m.over(a));
        if cheap::is_of(from.rest, held) {
            let listed = from.listed + 1;
            return Hand {
                at: Place { a, listed, ..from },
                held: Some(held),
            };
        }
        a = a.next_divisor(m);
    }
    Hand {
        at: Place { a, ..from },
        held: None,
    }
}

// The place before the first pair of the rest.
fn rest_of(at: Place) -> Place
    ensures rest { result.rest ≡ true }
    ensures first { result.a.e ≡ one width }
    ensures none { result.listed ≡ 0 }
{
    Place {
        rest: true,
        a: Monomial::ONE,
        listed: 0,
        ..at
    }
}

// By V, to the first cheap pair from a place on.
fn by_v(v: Members, m: Monomial, from: Place) -> Hand
    requires few { v.n ≤ width }
    requires proper { Proper m.e }
    requires stands { Standing (signals_at v.n v.set.now) m.e from.rest from.a.e from.listed }
    requires cheap { from.rest ≡ false }
    ensures { Sought (signals_at v.entry.n v.entry.set.now) m.e from result }
{
    let Some(near) = nearest::nearest(v, m, from.a) else {
        return Hand {
            at: from,
            held: None,
        };
    };
    let listed = from.listed + 1;
    Hand {
        at: Place {
            a: near.a,
            listed,
            ..from
        },
        held: Some(near.held),
    }
}

// One pass from a place on.
fn pass(v: Members, m: Monomial, from: Place) -> Hand
    requires few { v.n ≤ width }
    requires proper { Proper m.e }
    requires stands { Standing (signals_at v.n v.set.now) m.e from.rest from.a.e from.listed }
    ensures { Sought (signals_at v.entry.n v.entry.set.now) m.e from result }
{
    if from.many && !from.rest {
        return by_v(v, m, from);
    }
    seek(v, m, from)
}

// The first pair from a place on: of its kind; and behind the last cheap one, where all are asked for, of the rest from its beginning.
pub fn find(v: Members, m: Monomial, all: bool, from: Place) -> Hand
    requires few { v.n ≤ width }
    requires proper { Proper m.e }
    requires stands { Standing (signals_at v.n v.set.now) m.e from.rest from.a.e from.listed }
    requires asked { all ≡ false → from.rest ≡ false }
    ensures { Found (signals_at v.entry.n v.entry.set.now) m.e all from.rest from.a.e result }
{
    let mut at = from;
    // A loop: of two calls the pass would be a function by itself, and each pair would take longer.
    loop {
        let h = pass(v, m, at);
        // Of most small nonsquares all pairs are cheap.
        if h.held.is_some() || at.rest || !all || left(m, h.at.listed) < 1 {
            return h;
        }
        at = rest_of(at);
    }
}
