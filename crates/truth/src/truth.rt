// A line is true where its products, multiplied out, are the derivative of its signal. Its terms are added up one by one, and no list of them is kept.
ghost use Rattle.std.specs.Prelude.{◌≡◌, List, [], ◌∷◌, ◌++◌, ◌≤◌, ◌<◌, T};
ghost use Rattle.monomial.specs.Monomial.{Mono};
ghost use Rattle.monomial.specs.Product.{AtMost};
ghost use Rattle.wiring.specs.Panel.{set_exponent};
ghost use Rattle.wiring.specs.Poly.{plain};
ghost use Rattle.wiring.specs.Derivative.{derivative};
ghost use Rattle.wiring.specs.Quadratic.{in_v2};
ghost use Rattle.wiring.specs.Signals.{Fitting, signals_of};
ghost use Rattle.wiring.specs.Terms.{records, system};
ghost use Rattle.listing.specs.Meaning.{Product, signed};
ghost use Rattle.truth.specs.Truth.{line_true};
ghost use Rattle.truth.specs.Sums.{most_number, most_sum, pair_cells, cell, Bounded, Summed, Told, agrees, row_agrees};

use monomial::Monomial;
use wiring::held::Signals;
use wiring::panel::MOST_SIGNALS;
use wiring::system::System;
use wiring::wires;

// A cell for each pair of signals.
pub const PAIR_CELLS: usize = MOST_SIGNALS * MOST_SIGNALS;

// The totals of a line, that of each product of two signals in the cell of its first pair. So no two products share a cell, and a product that is
// written in several ways has one.
#[derive(Clone, Copy)]
pub struct Sums {
    pub cells: [i64; PAIR_CELLS],
}

// Of a line without terms.
pub fn no_terms() -> Sums
    ensures { (v : List Mono) → Summed v [] result }
{
    Sums {
        cells: [0; PAIR_CELLS],
    }
}

// The cell of m, which two signals multiply to.
fn cell_of(v: Signals, m: Monomial) -> usize
    requires fits { Fitting set_exponent (signals_of v) }
    requires met { T (in_v2 plain (signals_of v) m.e) }
    ensures value { result ≡ cell (signals_of v) m.e }
    ensures inside { result < pair_cells }
{
    let p = wires::pair_of(v, m).unwrap();
    MOST_SIGNALS * p.a + p.b
}

// A coefficient with its sign. Where none is written, number is 0 and the coefficient 1.
fn coefficient_of(negative: bool, number: u64) -> i64
    requires { number ≤ most_number }
    ensures { result ≡ signed negative number }
{
    let size = number.max(1) as i64;
    if negative { -size } else { size }
}

// One term more: the product of signals a and b.
pub fn add(v: Signals, sums: &mut Sums, a: usize, b: usize, negative: bool, number: u64)
    requires fits { Fitting set_exponent (signals_of v) }
    requires first { a < v.len }
    requires second { b < v.len }
    requires limited { number ≤ most_number }
    requires bounded { Bounded most_sum sums.old }
    ensures { (line : List Product) → Summed (signals_of v) line sums.old →
        Summed (signals_of v) (line ++ ((record { a = a; b = b; coefficient = signed negative number }) ∷ [])) sums.new }
{
    let at = cell_of(v, v.m[a].times(v.m[b]));
    sums.cells[at] += coefficient_of(negative, number);
}

// Whether the line and the derivative of z have the same coefficient of m, which two signals multiply to.
fn agrees(s: System, v: Signals, sums: &Sums, z: Monomial, m: Monomial) -> bool
    requires fits { Fitting set_exponent (signals_of v) }
    requires small { AtMost set_exponent z.e }
    requires met { T (in_v2 plain (signals_of v) m.e) }
    ensures { result ≡ agrees (signals_of v) sums.now (derivative plain (system (records s.entry.terms.now)) z.e) m.e }
{
    let told = sums.cells[cell_of(v, m)];
    told == i64::from(s.total(z, m))
}

// Whether they agree at the products of signal a with itself and the signals behind it: with those before it they stand in earlier rows.
fn row_agrees(s: System, v: Signals, sums: &Sums, z: Monomial, a: usize) -> bool
    requires fits { Fitting set_exponent (signals_of v) }
    requires small { AtMost set_exponent z.e }
    requires inside { a < v.len }
    ensures { result ≡ row_agrees (signals_of v) sums.now (derivative plain (system (records s.entry.terms.now)) z.e) a }
{
    let x = v.m[a];
    (a..v.len).all(|b| agrees(s, v, sums, z, x.times(v.m[b])))
}

// Whether the line with these sums is the derivative of signal number left: at every product of two signals, also those that only the line has, and
// the derivative has no other monomial.
pub fn is_true(s: System, v: Signals, left: usize, sums: &Sums) -> bool
    requires fits { Fitting set_exponent (signals_of v) }
    requires inside { left < v.len }
    ensures { (line : List Product) → Told (signals_of v) line → Summed (signals_of v) line sums.now →
        result ≡ line_true (signals_of v) (system (records s.entry.terms.now)) left line }
{
    let z = v.m[left];
    (0..v.len).all(|a| row_agrees(s, v, sums, z, a)) && !s.lacks_pair(v, z, None)
}
