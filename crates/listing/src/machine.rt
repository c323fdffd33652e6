// A machine that reads a listing byte by byte. It stops at the first byte behind which no readable listing goes on.
ghost use Rattle.std.specs.Prelude.{◌≡◌, ◌+◌, ◌≤◌, ◌<◌, length};
ghost use Rattle.reader.specs.Said.{said};
ghost use Rattle.listing.specs.Lines.{left_of};
ghost use Rattle.listing.specs.Machine.{to, one, span, ended, spell, named, line_from, begin_name, begin_term, behind, in_coefficient, begin_line, eat_at, eat, start};
ghost use Rattle.listing.specs.Held.{Fair, Held, InLine, Stands};
ghost use Rattle.listing.specs.Readable.{alive, ends, listing};

// What the machine is told, and the lines that it goes through, by their names here too.
pub use super::known::Known;
pub use super::lines::{digit_of, left_of, letter_of};
use reader::Broken;

// Where in a line the next byte stands.
#[derive(Clone, Copy)]
pub enum Place {
    // in the heading
    Heading,
    // at the start of a line of the first part; behind its w
    Names,
    NewName,
    // in the equals sign of a name's line, up to the first x
    Equals,
    // behind an x; behind a variable; behind a star; behind two; in an exponent; behind its star
    Factor,
    Power,
    Star,
    Exponent,
    Digits,
    Next,
    // at the start of a derivative's line; behind its letter; in the prime and the equals sign
    Line,
    Left,
    Prime,
    // at the start of the right side; behind a lone 0
    Right,
    Zero,
    // at the start of a term; in its coefficient; behind the coefficient's star
    Term,
    Coefficient,
    First,
    // behind the letter of the first name; behind the name; behind a star
    X1,
    W1,
    One,
    Times,
    // behind two stars; behind the letter of the second name; behind two names
    Square,
    X2,
    W2,
    Two,
    // behind the space that ends a term; behind the sign
    Sign,
    Gap,
}

// The place, how many new names and lines of the second part are whole, and a number:
// the place in a fixed word, or the coefficient so far.
#[derive(Clone, Copy)]
pub struct State {
    pub at: Place,
    pub names: u64,
    pub line: u64,
    pub number: u64,
}

// No Option of two states: the machine has a dead state, and stays in it (`Reader` and `Lively` of reader's specs).
#[derive(Clone, Copy)]
pub enum Reading {
    // no readable listing goes on so
    Dead,
    // the listing is whole
    Ended,
    At(State),
}

fn to(s: State, p: Place) -> Reading
    ensures { result ≡ to s p }
{
    Reading::At(State {
        at: p,
        number: 0,
        ..s
    })
}

// One byte leads on to a place; else it is as `other` says.
#[tactic(auto, unfolding(crate::specs::Machine::one))]
fn one(x: u8, c: u8, s: State, p: Place, other: Reading) -> Reading
    ensures { result ≡ one x c s p other }
{
    if x == c { to(s, p) } else { other }
}

// The bytes from low to high lead on to a place.
#[tactic(auto, unfolding(crate::specs::Machine::span))]
fn span(x: u8, low: u8, high: u8, s: State, p: Place, other: Reading) -> Reading
    ensures { result ≡ span x low high s p other }
{
    if low <= x && x <= high {
        to(s, p)
    } else {
        other
    }
}

// A newline leads on to `go`.
#[tactic(auto, unfolding(crate::specs::Machine::ended))]
fn ended(x: u8, go: Reading, other: Reading) -> Reading
    ensures { result ≡ ended x go other }
{
    if x == b'\n' { go } else { other }
}

// The next byte of a fixed word; behind the word it goes on as `done` says.
#[tactic(auto, unfolding(crate::specs::Machine::spell))]
fn spell(word: &[u8], x: u8, s: State, done: Reading) -> Reading
    requires { s.number < length word.now }
    ensures { result ≡ spell word.now x s done }
{
    let at = s.number as usize;
    if x != word[at] {
        return Reading::Dead;
    }
    if at + 1 < word.len() {
        return Reading::At(State {
            number: s.number + 1,
            ..s
        });
    }
    done
}

// One more new name is whole.
fn named(s: State) -> Reading
    requires { s.names ≤ 9 }
    ensures { result ≡ named s }
{
    Reading::At(State {
        at: Place::Names,
        names: s.names + 1,
        number: 0,
        ..s
    })
}

// The signal of the line that a state is in, and 0 where its line is none of the listing's, which the clause of `eat` leaves open.
fn signal_of(known: Known, s: State) -> u64
    requires few { known.n ≤ 9 }
    requires low { s.names ≤ 9 }
    ensures number { result ≡ left_of known s.names s.line }
    ensures within { result ≤ known.n + s.names }
{
    left_of(known, s.names, s.line).unwrap_or(0)
}

// The line of this number begins, unless there is none.
#[tactic(auto, unfolding(crate::specs::Machine::line_from))]
fn line_from(known: Known, names: u64, line: u64) -> Reading
    requires few { known.n ≤ 9 }
    requires low { names ≤ 9 }
    ensures { result ≡ line_from known names line }
{
    match left_of(known, names, line) {
        None => Reading::Ended,
        Some(_) => Reading::At(State {
            at: Place::Line,
            names,
            line,
            number: 0,
        }),
    }
}

// A name begins, at p for a variable's digit and at q for a new name's.
#[tactic(auto, unfolding(crate::specs::Machine::begin_name))]
fn begin_name(x: u8, s: State, p: Place, q: Place) -> Reading
    ensures { result ≡ begin_name x s p q }
{
    if 0 < s.names {
        return one(x, b'x', s, p, one(x, b'w', s, q, Reading::Dead));
    }
    one(x, b'x', s, p, Reading::Dead)
}

// A term begins.
#[tactic(auto, unfolding(crate::specs::Machine::begin_term))]
fn begin_term(x: u8, s: State) -> Reading
    ensures { result ≡ begin_term x s }
{
    if b'1' <= x && x <= b'9' {
        Reading::At(State {
            at: Place::Coefficient,
            number: u64::from(x - b'0'),
            ..s
        })
    } else {
        begin_name(x, s, Place::X1, Place::W1)
    }
}

// A term is whole: a sign and the next term, or the line's end.
#[tactic(auto, unfolding(crate::specs::Machine::behind))]
fn behind(known: Known, x: u8, s: State) -> Reading
    requires few { known.n ≤ 9 }
    requires low { s.names ≤ 9 }
    requires in_line { InLine known s }
    ensures { result ≡ behind known x s }
{
    one(
        x,
        b' ',
        s,
        Place::Sign,
        ended(x, line_from(known, s.names, s.line + 1), Reading::Dead),
    )
}

// One more digit of the coefficient, or what stands behind it.
#[tactic(auto, unfolding(crate::specs::Machine::in_coefficient))]
fn in_coefficient(known: Known, x: u8, s: State) -> Reading
    requires few { known.n ≤ 9 }
    requires low { s.names ≤ 9 }
    requires in_line { InLine known s }
    requires limited { s.number ≤ 1000000000 }
    ensures { result ≡ in_coefficient known x s }
{
    let other = one(x, b'*', s, Place::First, behind(known, x, s));
    if x < b'0' || b'9' < x {
        return other;
    }
    let longer = 10 * s.number + u64::from(x - b'0');
    if 1000000000 < longer {
        return other;
    }
    Reading::At(State {
        at: Place::Coefficient,
        number: longer,
        ..s
    })
}

// A line of the first part begins, or the blank line ends that part.
#[tactic(auto, unfolding(crate::specs::Machine::begin_line))]
fn begin_line(known: Known, x: u8, s: State) -> Reading
    requires few { known.n ≤ 9 }
    requires low { s.names ≤ 9 }
    ensures { result ≡ begin_line known x s }
{
    let blank = line_from(known, s.names, 0);
    if s.names < known.cards {
        return ended(x, blank, one(x, b'w', s, Place::NewName, Reading::Dead));
    }
    ended(x, blank, Reading::Dead)
}

// What the byte x leads to.
#[tactic(auto, unfolding(crate::specs::Machine::eat_at))]
fn eat_at(known: Known, x: u8, s: State) -> Reading
    requires fair { Fair known }
    requires holds { Held known s }
    ensures { result ≡ eat_at known x s s.at }
{
    let dead = Reading::Dead;
    let last_variable = b'0' + known.n as u8;
    match s.at {
        Place::Heading => spell(b"Introduced variables:\n", x, s, to(s, Place::Names)),
        Place::Names => begin_line(known, x, s),
        Place::NewName => one(x, b'0' + s.names as u8, s, Place::Equals, dead),
        Place::Equals => spell(b" = x", x, s, to(s, Place::Factor)),
        Place::Factor => span(x, b'1', last_variable, s, Place::Power, dead),
        Place::Power => one(x, b'*', s, Place::Star, ended(x, named(s), dead)),
        Place::Star => one(
            x,
            b'*',
            s,
            Place::Exponent,
            one(x, b'x', s, Place::Factor, dead),
        ),
        Place::Exponent => span(x, b'1', b'9', s, Place::Digits, dead),
        Place::Digits => {
            span(
                x,
                b'0',
                b'9',
                s,
                Place::Digits,
                one(x, b'*', s, Place::Next, ended(x, named(s), dead)),
            )
        }
        Place::Next => one(x, b'x', s, Place::Factor, dead),
        Place::Line => {
            one(
                x,
                letter_of(known, signal_of(known, s)),
                s,
                Place::Left,
                dead,
            )
        }
        Place::Left => {
            one(
                x,
                digit_of(known, signal_of(known, s)),
                s,
                Place::Prime,
                dead,
            )
        }
        Place::Prime => spell(b"' = ", x, s, to(s, Place::Right)),
        Place::Right => one(
            x,
            b'0',
            s,
            Place::Zero,
            one(x, b'-', s, Place::Term, begin_term(x, s)),
        ),
        Place::Zero => ended(x, line_from(known, s.names, s.line + 1), dead),
        Place::Term => begin_term(x, s),
        Place::Coefficient => in_coefficient(known, x, s),
        Place::First => begin_name(x, s, Place::X1, Place::W1),
        Place::X1 => span(x, b'1', last_variable, s, Place::One, dead),
        Place::W1 => span(x, b'0', b'0' + (s.names - 1) as u8, s, Place::One, dead),
        Place::One => one(x, b'*', s, Place::Times, behind(known, x, s)),
        Place::Times => one(
            x,
            b'*',
            s,
            Place::Square,
            begin_name(x, s, Place::X2, Place::W2),
        ),
        Place::Square => one(x, b'2', s, Place::Two, dead),
        Place::X2 => span(x, b'1', last_variable, s, Place::Two, dead),
        Place::W2 => span(x, b'0', b'0' + (s.names - 1) as u8, s, Place::Two, dead),
        Place::Two => behind(known, x, s),
        Place::Sign => one(x, b'+', s, Place::Gap, one(x, b'-', s, Place::Gap, dead)),
        Place::Gap => one(x, b' ', s, Place::Term, dead),
    }
}

// What a byte leads to; behind the end there is nothing more to read. Loops over the bytes of a text ask this one.
#[tactic(auto, unfolding(crate::specs::Machine::eat))]
pub fn eat_byte(known: Known, g: Reading, x: u8) -> Reading
    requires fair { Fair known }
    requires stands { Stands known g }
    ensures { result ≡ eat known g x }
{
    match g {
        Reading::Dead | Reading::Ended => Reading::Dead,
        Reading::At(s) => eat_at(known, x, s),
    }
}

// What a number leads to: a byte to what `eat_byte` says; with any other number no readable listing goes on.
#[tactic(auto, using(crate::proofs::Wide::wide_dead))]
pub fn eat(known: Known, g: Reading, x: u64) -> Reading
    requires fair { Fair known }
    requires stands { Stands known g }
    ensures { result ≡ eat known g x }
{
    match u8::try_from(x) {
        Ok(x) => eat_byte(known, g, x),
        Err(_) => Reading::Dead,
    }
}

// Whether the machine reads on.
fn alive(g: Reading) -> bool
    ensures { result ≡ alive g }
{
    !matches!(g, Reading::Dead)
}

// Whether the listing is whole.
fn ends(g: Reading) -> bool
    ensures { result ≡ ends g }
{
    matches!(g, Reading::Ended)
}

// The machine before the first byte.
pub fn begin() -> Reading
    ensures { result ≡ start }
{
    Reading::At(State {
        at: Place::Heading,
        names: 0,
        line: 0,
        number: 0,
    })
}

// What is said of a text.
pub fn read(known: Known, text: &[u8]) -> Result<(), Broken>
    requires { Fair known }
    ensures { result ≡ said (listing known) text.now }
{
    let mut g = begin();
    for (i, &x) in text.iter().enumerate() {
        g = eat_byte(known, g, x);
        if !alive(g) {
            return Err(Broken {
                place: i as u64 + 1,
            });
        }
    }
    if ends(g) {
        return Ok(());
    }
    Err(Broken {
        place: text.len() as u64 + 1,
    })
}
