// Set records, and what a set may hold.
ghost use Rattle.std.specs.Prelude.{◌≡◌, true, ◌*◌, ◌≤◌, ◌<◌, eqb, length, drop, take};
ghost use Rattle.monomial.specs.Lists.{any, all};
ghost use Rattle.monomial.specs.Monomial.{constants, width};
ghost use Rattle.monomial.specs.Order.{same};
ghost use Rattle.wiring.specs.Panel.{cards};
ghost use Rattle.wiring.specs.Sets.{places, size_of, ascending, monomial_right, set_right, monomials_of, SetReads};

pub use super::held::Set;
use super::panel::{CARDS, Panel, SET_BYTES, SET_EXPONENT};
use super::{sockets, terms};
use monomial::Monomial;
use monomial::width::WIDTH;

// Whether m is 1 or a single variable: those are the monomials of degree below 2.
fn is_constant(m: Monomial) -> bool
    ensures { result ≡ any (same m.e) (constants width) }
{
    m.is_low(WIDTH, 2)
}

#[tactic(auto, unfolding(crate::specs::Sets::monomial_right))]
pub fn monomial_right(panel: Panel, m: Monomial) -> bool
    ensures { result ≡ monomial_right panel m.e }
{
    !is_constant(m)
        && terms::exponents_right(SET_EXPONENT, panel.n, m)
        && sockets::can_build(panel, m)
}

// How many places of a record are used: up to the first that is all zero.
fn size_of(s: &[u8; SET_BYTES]) -> usize
    ensures size { result ≡ size_of s.now }
    ensures few { result ≤ cards }
{
    (0..CARDS)
        .position(|i| Monomial::ONE == Monomial::read(s, WIDTH * i))
        .unwrap_or(CARDS)
}

// Whether the bytes from at on are all zero.
fn zero_from(s: &[u8], at: usize) -> bool
    requires { at ≤ length s.now }
    ensures { result ≡ all (eqb 0) (drop at s.now) }
{
    s[at..].iter().all(|&x| x == 0)
}

// Whether the first len places ascend strictly: each stands before the next.
fn ascends(s: &[u8; SET_BYTES], len: usize) -> bool
    requires { len ≤ cards }
    ensures { result ≡ ascending (take len (places s.now)) }
{
    (1..len).all(|i| Monomial::read(s, WIDTH * (i - 1)) < Monomial::read(s, WIDTH * i))
}

// Whether the first len places hold monomials that a set may have.
fn monomials_right(panel: Panel, s: &[u8; SET_BYTES], len: usize) -> bool
    requires { len ≤ cards }
    ensures { result ≡ all (monomial_right panel) (take len (places s.now)) }
{
    (0..len).all(|i| monomial_right(panel, Monomial::read(s, WIDTH * i)))
}

// The first len places as a set.
fn set_of(s: &[u8; SET_BYTES], len: usize) -> Set
    requires { len ≤ cards }
    ensures holds { monomials_of result ≡ take len (places s.now) }
    ensures size { result.len ≡ len }
{
    let mut m = [Monomial::ONE; CARDS];
    for i in 0..len {
        m[i] = Monomial::read(s, WIDTH * i);
    }
    Set { m, len }
}

// Whether a record keeps its rule, once it is known how many places are used.
#[tactic(auto, unfolding(crate::specs::Sets::set_right, crate::specs::Sets::set_of))]
fn keeps_rule(panel: Panel, s: &[u8; SET_BYTES], len: usize) -> bool
    requires used { len ≡ size_of s.now }
    requires few { len ≤ cards }
    ensures { result ≡ set_right panel s.now }
{
    zero_from(s, WIDTH * len) && ascends(s, len) && monomials_right(panel, s, len)
}

// Reads a set record: none where it breaks its rule.
pub(crate) fn read_set(panel: Panel, s: &[u8; SET_BYTES]) -> Option<Set>
    ensures { SetReads panel s.now result }
{
    let len = size_of(s);
    keeps_rule(panel, s, len).then(|| set_of(s, len))
}
