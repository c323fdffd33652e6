// What a byte of a listing says, of the place where it stands.
ghost use Rattle.std.specs.Prelude.{◌≡◌, ◌-◌, ◌≤◌, ◌<◌};
ghost use Rattle.listing.specs.Held.{Fair, Held, Stands};
ghost use Rattle.listing.specs.Saying.{name_said, digit_said, star_said, number_said, minus_said, term_said, saying_at, saying};

use super::known::Known;
use super::machine::{Place, Reading, State};

#[derive(Clone, Copy)]
pub enum Saying {
    Silence,
    // in a name line: a variable, from 0; that its exponent follows; a digit of it; that the name is whole
    Variable(u64),
    Raised,
    Digit(u64),
    NameEnds,
    // in a derivative line: a minus; the coefficient so far; a name by its signal number; the same name once more; that a term, the last term of a
    // line, or a line without terms is whole
    Minus,
    Number(u64),
    Name(u64),
    Again,
    TermEnds,
    LineEnds,
    ZeroLine,
}

// How far x is behind c, and 0 where it is before it: a byte out of its span says something too, which nobody hears.
fn above(x: u8, c: u8) -> u64
    ensures { result ≡ x - c }
{
    u64::from(x.saturating_sub(c))
}

#[tactic(auto, unfolding(crate::specs::Saying::name_said))]
fn name_said(x: u8) -> Saying
    ensures { result ≡ name_said x }
{
    if x == b'\n' {
        Saying::NameEnds
    } else {
        Saying::Silence
    }
}

#[tactic(auto, unfolding(crate::specs::Saying::digit_said))]
fn digit_said(x: u8) -> Saying
    ensures { result ≡ digit_said x }
{
    if b'0' <= x {
        Saying::Digit(u64::from(x - b'0'))
    } else {
        name_said(x)
    }
}

// A second star leads on to an exponent.
#[tactic(auto, unfolding(crate::specs::Saying::star_said))]
fn star_said(x: u8) -> Saying
    ensures { result ≡ star_said x }
{
    if x == b'*' {
        Saying::Raised
    } else {
        Saying::Silence
    }
}

// A digit behind the coefficient v.
#[tactic(auto, unfolding(crate::specs::Saying::number_said))]
fn number_said(v: u64, x: u8, other: Saying) -> Saying
    requires { v ≤ 1000000000 }
    ensures { result ≡ number_said v x other }
{
    if b'0' <= x && x <= b'9' {
        Saying::Number(10 * v + u64::from(x - b'0'))
    } else {
        other
    }
}

#[tactic(auto, unfolding(crate::specs::Saying::minus_said))]
fn minus_said(x: u8, other: Saying) -> Saying
    ensures { result ≡ minus_said x other }
{
    if x == b'-' { Saying::Minus } else { other }
}

#[tactic(auto, unfolding(crate::specs::Saying::term_said))]
fn term_said(x: u8) -> Saying
    ensures { result ≡ term_said x }
{
    match x {
        b' ' => Saying::TermEnds,
        b'\n' => Saying::LineEnds,
        _ => Saying::Silence,
    }
}

// What the byte x says in a line.
#[tactic(auto, unfolding(crate::specs::Saying::saying_at))]
fn say_at(known: Known, x: u8, s: State) -> Saying
    requires fair { Fair known }
    requires holds { Held known s }
    ensures { result ≡ saying_at known x s s.at }
{
    match s.at {
        Place::Factor => Saying::Variable(above(x, b'1')),
        Place::Power => name_said(x),
        Place::Star => star_said(x),
        Place::Exponent => Saying::Digit(above(x, b'0')),
        Place::Digits => digit_said(x),
        Place::Right => minus_said(x, number_said(0, x, Saying::Silence)),
        Place::Zero => Saying::ZeroLine,
        Place::Term => number_said(0, x, Saying::Silence),
        Place::Coefficient => number_said(s.number, x, term_said(x)),
        Place::X1 => Saying::Name(above(x, b'0')),
        Place::W1 => Saying::Name(known.n + 1 + above(x, b'0')),
        Place::One => term_said(x),
        Place::Square => Saying::Again,
        Place::X2 => Saying::Name(above(x, b'0')),
        Place::W2 => Saying::Name(known.n + 1 + above(x, b'0')),
        Place::Two => term_said(x),
        Place::Sign => minus_said(x, Saying::Silence),
        _ => Saying::Silence,
    }
}

// What a byte says; behind the end, and where nothing readable goes on, nothing.
#[tactic(auto, unfolding(crate::specs::Saying::saying))]
pub fn say(known: Known, g: Reading, x: u8) -> Saying
    requires fair { Fair known }
    requires stands { Stands known g }
    ensures { result ≡ saying known g x }
{
    match g {
        Reading::Dead | Reading::Ended => Saying::Silence,
        Reading::At(s) => say_at(known, x, s),
    }
}
