// What a factor pair adds to V. It is cheap where it adds a single monomial.
ghost use Rattle.std.specs.Prelude.{◌≡◌, List, ◌||◌};
ghost use Rattle.monomial.specs.Lists.{any};
ghost use Rattle.monomial.specs.Monomial.{Mono};
ghost use Rattle.monomial.specs.Order.{same};
ghost use Rattle.wiring.specs.Signals.{signals_at};
ghost use Rattle.lister.specs.Cheap.{cheap, of_kind, Holds};

use monomial::Monomial;
use wiring::signals::Members;

// What adds nothing of a pair: the first, which V has or which is the second once more; and the second, which V has.
#[derive(Clone, Copy)]
pub struct Held {
    pub first: bool,
    pub second: bool,
}

impl Held {
    // Of no pair.
    pub const NOTHING: Held = Held {
        first: false,
        second: false,
    };
}

// Whether the first of a pair adds nothing to the second: they are one, or V has it.
#[tactic(auto, using(monomial::proofs::order::Derived::same_from_eq))]
fn is_met(v: Members, a: Monomial, b: Monomial) -> bool
    ensures { result ≡ same a.e b.e || any (same a.e) (signals_at v.entry.n v.entry.set.now) }
{
    a == b || v.is_signal(a)
}

pub fn look_up(v: Members, a: Monomial, b: Monomial) -> Held
    ensures { Holds (signals_at v.entry.n v.entry.set.now) (a.e, b.e) result }
{
    let second = v.is_signal(b);
    let first = is_met(v, a, b);
    Held { first, second }
}

// Whether just one of the two adds something.
fn is_cheap(h: Held) -> bool
    ensures { (v : List Mono) (p : Mono × Mono) → Holds v p h → result ≡ cheap v p }
{
    h.first != h.second
}

// Whether a pair is of the kind that is asked for: of the rest, or cheap.
pub fn is_of(rest: bool, h: Held) -> bool
    ensures { (v : List Mono) (p : Mono × Mono) → Holds v p h → result ≡ of_kind v rest p }
{
    is_cheap(h) != rest
}
