// Sockets fed from outside: which variables are signals; the settings of a panel, and what a new monomial may be.
ghost use Rattle.std.specs.Prelude.{◌≡◌};
ghost use Rattle.wiring.specs.Sockets.{panel_of, halved, marked, count_right, panel_right, free, can_build};

use super::kit;
use super::panel::{FULL_DEGREE, Panel};
use monomial::Monomial;
use monomial::width::WIDTH;

// A number halved so many times.
fn halved(m: u64, times: usize) -> u64
    ensures { result ≡ halved m times }
{
    let mut rest = m;
    for _ in 0..times {
        rest /= 2;
    }
    rest
}

// Whether variable number i, from 0, is a signal.
#[tactic(auto, unfolding(crate::specs::Sockets::marked))]
pub(crate) fn is_marked(marks: u64, i: usize) -> bool
    ensures { result ≡ marked marks i }
{
    halved(marks, i) % 2 == 1
}

// Whether n is a number of variables that the panel has.
#[tactic(auto, unfolding(crate::specs::Sockets::count_right))]
fn count_right(n: u64) -> bool
    ensures { result ≡ count_right n }
{
    (1..=WIDTH as u64).contains(&n)
}

// Whether the panel has so many variables, no mark stands beyond them, and there is a kit with that limit.
#[tactic(auto, unfolding(crate::specs::Sockets::panel_right))]
pub fn panel_right(n: u64, marks: u64, degree: u64) -> bool
    ensures { result ≡ panel_right (panel_of n marks degree) }
{
    count_right(n) && halved(marks, n as usize) == 0 && kit::degree_right(degree)
}

// Whether no signal is in m. Where no marks are left, nothing is asked of the exponents: most systems have no signals.
fn is_free(marks: u64, m: Monomial) -> bool
    ensures { result ≡ free marks m.e }
{
    let mut rest = marks;
    for &e in &m.e {
        if rest == 0 {
            return true;
        }
        if rest % 2 == 1 && e != 0 {
            return false;
        }
        rest /= 2;
    }
    true
}

// Whether the kit can build m: the one test of the walk, of counting and of set records. Of a system without signals, with the full kit, nothing is asked
// of the exponents: most are such.
#[tactic(auto, unfolding(crate::specs::Sockets::can_build))]
pub fn can_build(panel: Panel, m: Monomial) -> bool
    ensures { result ≡ can_build panel m.e }
{
    is_free(panel.marks, m) && (FULL_DEGREE <= panel.degree || m.degree() <= panel.degree)
}
