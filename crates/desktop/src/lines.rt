// The derivative lines of a listing, as its bytes say them: the first that is false.
ghost use Rattle.std.specs.Prelude.{◌≡◌, false, List, ◌<◌};
ghost use Rattle.wiring.specs.Signals.{signals_of};
ghost use Rattle.wiring.specs.Terms.{records, system};
ghost use Rattle.listing.specs.Meaning.{Product, told};
ghost use Rattle.truth.specs.Sums.{Summed};
ghost use Rattle.desktop.specs.Lines.{Notes, Says, product_of, ends_term, ends_line, with_term, Adding, Judging, lines_said};

use listing::known::Known;
use listing::lines::left_of;
use listing::saying::Saying;
use listing::{machine, saying};
use reader::Broken;
use truth::truth as sums;
use truth::truth::Sums;
use wiring::held::Signals;
use wiring::system::System;

// Of the term that is read its sign, its coefficient (0 where none is written) and its signals.
// The coefficient is no Option: `signed` of the listing's meaning holds 0 itself to be none.
#[derive(Clone, Copy)]
pub struct Telling {
    pub negative: bool,
    pub number: u64,
    pub a: usize,
    pub b: usize,
}

// Before the first byte of a term.
fn no_term() -> Telling
    ensures { result ≡ record { negative = false; number = 0; a = 0; b = 0 } }
{
    Telling {
        negative: false,
        number: 0,
        a: 0,
        b: 0,
    }
}

// What a byte says of a term is noted.
fn note(t: Telling, said: Saying) -> Telling
    ensures { (q : Notes) → Says q t → Says (told said q) result }
{
    match said {
        Saying::Minus => Telling {
            negative: true,
            ..t
        },
        Saying::Number(number) => Telling { number, ..t },
        Saying::Name(s) => Telling {
            a: t.b,
            b: s as usize,
            ..t
        },
        Saying::Again => Telling { a: t.b, ..t },
        Saying::TermEnds | Saying::LineEnds | Saying::ZeroLine => no_term(),
        _ => t,
    }
}

fn ends_term(said: Saying) -> bool
    ensures { result ≡ ends_term said }
{
    matches!(said, Saying::TermEnds | Saying::LineEnds)
}

fn ends_line(said: Saying) -> bool
    ensures { result ≡ ends_line said }
{
    matches!(said, Saying::LineEnds | Saying::ZeroLine)
}

// A term that is whole is added up.
fn add_ended(v: Signals, totals: &mut Sums, t: Telling, said: Saying)
    requires { Adding v totals.old t }
    ensures { (line : List Product) → Summed (signals_of v) line totals.old → Summed (signals_of v) (with_term said line (product_of t)) totals.new }
{
    if ends_term(said) {
        sums::add(v, totals, t.a, t.b, t.negative, t.number);
    }
}

// The first line of a readable text that is false, by its number in the text.
pub(crate) fn judge_lines(known: Known, s: System, v: Signals, text: &[u8]) -> Result<(), Broken>
    requires { Judging known v text.now }
    ensures { result ≡ lines_said known (system (records s.entry.terms.now)) text.now }
{
    let names = v.len as u64 - known.n - 1;
    let mut g = machine::begin();
    let mut t = no_term();
    let mut totals = sums::no_terms();
    let mut line: u64 = 0;
    for &x in text {
        let said = saying::say(known, g, x);
        add_ended(v, &mut totals, t, said);
        if ends_line(said) {
            let left = left_of(known, names, line).unwrap() as usize;
            if !sums::is_true(s, v, left, &totals) {
                return Err(Broken {
                    place: names + 3 + line,
                });
            }
            totals = sums::no_terms();
            line += 1;
        }
        t = note(t, said);
        g = machine::eat_byte(known, g, x);
    }
    Ok(())
}
