// New names put in the order of a set, one after the other, and the record of the set that they form.
ghost use Rattle.std.specs.Prelude.{◌≡◌, true, not, ◌&&◌, [], ◌∷◌, ◌++◌, ◌+◌, ◌≤◌, ◌<◌};
ghost use Rattle.monomial.specs.Lists.{any};
ghost use Rattle.monomial.specs.Order.{same};
ghost use Rattle.wiring.specs.Panel.{cards};
ghost use Rattle.wiring.specs.Sets.{monomial_right, monomials_of, set_record};
ghost use Rattle.wiring.specs.Claims.{Wide};
ghost use Rattle.roster.specs.Roster.{Forms, Entering, Entered};

use monomial::Monomial;
use monomial::width::WIDTH;
use wiring::held::Set;
use wiring::panel::{CARDS, Panel, SET_BYTES};
use wiring::sets;

// Whether m is in a set.
fn is_in(set: Set, m: Monomial) -> bool
    ensures { result ≡ any (same m.e) (monomials_of set) }
{
    set.m[..set.len].contains(&m)
}

// Whether m may join a set: it is what a set may hold, and new there.
fn may_join(panel: Panel, set: Set, m: Monomial) -> bool
    ensures { result ≡ monomial_right panel m.e && not (any (same m.e) (monomials_of set)) }
{
    sets::monomial_right(panel, m) && !is_in(set, m)
}

// The set with m in its place. One monomial is in hand, m first: where it stands before the next of the set, it is laid down and that one taken up.
fn entered(set: Set, m: Monomial) -> Set
    requires { Entering set m.e }
    ensures { Entered set m.e result }
{
    let len = set.len;
    let mut next = [Monomial::ONE; CARDS];
    let mut hand = m;
    for i in 0..len {
        let x = set.m[i];
        if hand < x {
            next[i] = hand;
            hand = x;
        } else {
            next[i] = x;
        }
    }
    next[len] = hand;
    Set {
        m: next,
        len: len + 1,
    }
}

// The set with m behind its last signal.
pub fn with_last(set: Set, m: Monomial) -> Set
    requires { set.len < cards }
    ensures { (monomials_of result ≡ monomials_of set ++ (m.e ∷ [])) × (result.len ≡ set.len + 1) }
{
    let at = set.len;
    let mut next = set;
    next.m[at] = m;
    next.len = at + 1;
    next
}

// The record of a set.
pub fn record_of(set: Set) -> [u8; SET_BYTES]
    requires { Wide (monomials_of set) }
    ensures { result ≡ set_record (monomials_of set) }
{
    let mut bytes = [0u8; SET_BYTES];
    for i in 0..set.len {
        set.m[i].write(&mut bytes, WIDTH * i);
    }
    bytes
}

// The record of the set that names form. They join it one by one, the last first: so what stands there is at every moment the set of the names behind.
pub fn set_of(panel: Panel, names: Set) -> Option<[u8; SET_BYTES]>
    ensures { Forms panel (monomials_of names) result }
{
    let mut set = Set::EMPTY;
    for i in (0..names.len).rev() {
        let m = names.m[i];
        if !may_join(panel, set, m) {
            return None;
        }
        set = entered(set, m);
    }
    Some(record_of(set))
}
