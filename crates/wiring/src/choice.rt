// One monomial of many: the best so far by an order.
ghost use Rattle.std.specs.Prelude.{◌≡◌, Bool, List, ◌∷◌, cond, MatchOption, Option, Some, None};
ghost use Rattle.monomial.specs.Monomial.{Mono};
ghost use Rattle.monomial.specs.Order.{before};
ghost use Rattle.wiring.specs.Choice.{cheaper, Best};

use monomial::Monomial;

// Whether a is split rather than b.
fn is_cheaper(a: Monomial, b: Monomial) -> bool
    ensures { result ≡ cheaper a.e b.e }
{
    let s = a.score();
    let t = b.score();
    if s < t {
        return true;
    }
    if t < s {
        return false;
    }
    a < b
}

// The best so far, once m is met too: m takes its place where it comes earlier.
fn better<F: Fn(Monomial, Monomial) -> bool>(
    best: Option<Monomial>,
    m: Monomial,
    earlier: F,
) -> Option<Monomial>
    requires { F.IsAlwaysCallable earlier }
    ensures { MatchOption best (result ≡ Some m) (λ old. (said : Bool) × F.post earlier m old said × (result ≡ Some (cond said m old))) }
{
    match best {
        Some(old) if !earlier(m, old) => best,
        _ => Some(m),
    }
}

// The cheapest, once m is met too.
pub fn cheapest(best: Option<Monomial>, m: Monomial) -> Option<Monomial>
    ensures { (l : List Mono) → Best cheaper l best → Best cheaper (m.e ∷ l) result }
{
    better(best, m, is_cheaper)
}

// The least, once m is met too.
pub(crate) fn least(best: Option<Monomial>, m: Monomial) -> Option<Monomial>
    ensures { (l : List Mono) → Best before l best → Best before (m.e ∷ l) result }
{
    better(best, m, |a, b| a < b)
}
