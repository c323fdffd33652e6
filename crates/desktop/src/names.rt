// The new names of a listing, as its bytes say them. Every exponent above the largest that a set may have is kept as one more than that: it is
// refused all the same, and fits a byte.
ghost use Rattle.std.specs.Prelude.{◌≡◌, map, ◌+◌, ◌≤◌, ◌<◌, get_or, set};
ghost use Rattle.monomial.specs.Monomial.{width};
ghost use Rattle.wiring.specs.Panel.{cards};
ghost use Rattle.wiring.specs.Sets.{monomials_of};
ghost use Rattle.listing.specs.Held.{Fair};
ghost use Rattle.listing.specs.Meaning.{named, names};
ghost use Rattle.desktop.specs.Names.{above, cap, capped, Notes, Holds, Ready};

use listing::known::Known;
use listing::saying::Saying;
use listing::{machine, saying};
use monomial::Monomial;
use roster::roster as sets;
use wiring::held::Set;
use wiring::panel::SET_EXPONENT;

const ABOVE: u64 = SET_EXPONENT as u64 + 1;

// The names that are whole; of the one that is read the powers that are, and then a variable, from 0, with its power so far.
#[derive(Clone, Copy)]
pub struct Naming {
    pub names: Set,
    pub mono: Monomial,
    pub variable: usize,
    pub power: u64,
}

#[tactic(auto, unfolding(crate::specs::Names::cap))]
fn capped(x: u64) -> u64
    ensures { result ≡ cap x }
{
    x.min(ABOVE)
}

// The monomial with one power more.
fn closed(mono: Monomial, variable: usize, power: u64) -> Monomial
    requires inside { variable < width }
    requires limited { power ≤ above }
    ensures { result.e ≡ set mono.e variable (cap (get_or mono.e variable 0 + power)) }
{
    let mut e = mono.e;
    let sum = capped(u64::from(e[variable]) + power);
    e[variable] = sum as u8;
    Monomial::of(e)
}

// What a byte says of a name is noted.
fn note(k: Naming, said: Saying) -> Naming
    requires { Ready k said }
    ensures { (q : Notes) → Holds q k → Holds (named said q) result }
{
    match said {
        Saying::Variable(v) => Naming {
            mono: closed(k.mono, k.variable, k.power),
            variable: v as usize,
            power: 1,
            ..k
        },
        Saying::Raised => Naming { power: 0, ..k },
        Saying::Digit(d) => Naming {
            power: capped(10 * k.power + d),
            ..k
        },
        Saying::NameEnds => Naming {
            names: sets::with_last(k.names, closed(k.mono, k.variable, k.power)),
            mono: Monomial::ONE,
            variable: 0,
            power: 0,
        },
        _ => k,
    }
}

// The new names of a text, in its order.
pub(crate) fn names_of(known: Known, text: &[u8]) -> Set
    requires fair { Fair known }
    requires few { known.n ≤ width }
    requires six { known.cards ≡ cards }
    ensures { monomials_of result ≡ map capped (names known text.now) }
{
    let mut k = Naming {
        names: Set::EMPTY,
        mono: Monomial::ONE,
        variable: 0,
        power: 0,
    };
    let mut g = machine::begin();
    for &x in text {
        k = note(k, saying::say(known, g, x));
        g = machine::eat_byte(known, g, x);
    }
    k.names
}
