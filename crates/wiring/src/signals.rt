// V, the signals of a set, and V2, their products by twos: V held by value, or the set alone, whose monomials lie side by side in lent bytes.
ghost use Rattle.std.specs.Prelude.{◌≡◌, ◌+◌, ◌/◌, ◌≤◌, ◌<◌, length, get_or};
ghost use Rattle.monomial.specs.Monomial.{one, width};
ghost use Rattle.monomial.specs.Lists.{any};
ghost use Rattle.monomial.specs.Order.{same};
ghost use Rattle.wiring.specs.Poly.{plain};
ghost use Rattle.wiring.specs.Quadratic.{in_v2};
ghost use Rattle.wiring.specs.Signals.{signals, signals_of, tabled, signals_at};
ghost use Rattle.wiring.specs.Sets.{monomials_of};

use super::held::Set;
pub use super::held::Signals;
use super::panel::MOST_SIGNALS;
use monomial::Monomial;
use monomial::width::WIDTH;

// V of a set.
pub fn signals_of(n: usize, set: Set) -> Signals
    requires { n ≤ width }
    ensures { (signals_of result ≡ signals width n (monomials_of set)) × (result.len ≡ n + 1 + set.len) }
{
    let mut m = [Monomial::ONE; MOST_SIGNALS];
    for i in 0..n {
        m[i + 1] = Monomial::constant(i + 1);
    }
    for j in 0..set.len {
        m[n + 1 + j] = set.m[j];
    }
    Signals {
        m,
        len: n + 1 + set.len,
    }
}

// Whether m is among the monomials that lie side by side. They are lent: a copy for each question would cost more than the search.
pub fn is_among(list: &[u8], m: Monomial) -> bool
    ensures { result ≡ any (same m.e) (tabled list.now) }
{
    for i in 0..list.len() / WIDTH {
        if m == Monomial::read(list, WIDTH * i) {
            return true;
        }
    }
    false
}

// The members of V: 1, n variables, and the monomials of a set that lie side by side in lent bytes. That n is at most the width stays a clause where it is
// needed: is_signal and is_square are promised for every n.
#[derive(Clone, Copy)]
pub struct Members<'a> {
    pub n: usize,
    pub set: &'a [u8],
}

impl Members<'_> {
    // How many new monomials there are.
    pub fn order(self) -> usize
        ensures { result ≡ length self.entry.set.now / width }
    {
        self.set.len() / WIDTH
    }

    // How many members there are.
    pub fn len(self) -> usize
        requires { self.n ≤ width }
        ensures { result ≡ length (signals_at self.entry.n self.entry.set.now) }
    {
        self.n + 1 + self.order()
    }

    // Signal number j.
    pub fn signal(self, j: usize) -> Monomial
        requires few { self.n ≤ width }
        requires inside { j < length (signals_at self.n self.set.now) }
        ensures { result.e ≡ get_or (signals_at self.entry.n self.entry.set.now) j (one width) }
    {
        if j <= self.n {
            return Monomial::constant(j);
        }
        Monomial::read(self.set, WIDTH * (j - self.n - 1))
    }

    // Whether m is in V: 1 and the variables are those of degree below 2.
    pub fn is_signal(self, m: Monomial) -> bool
        ensures { result ≡ any (same m.e) (signals_at self.entry.n self.entry.set.now) }
    {
        m.is_low(self.n, 2) || is_among(self.set, m)
    }

    // Whether m is in V2. No product is made: m is divided, and the quotient looked for. What 1 and the variables multiply to by twos is of degree below
    // 3, and every other product has a new monomial for a factor; the last of these, the largest, are tried first.
    pub fn is_square(self, m: Monomial) -> bool
        ensures { result ≡ in_v2 plain (signals_at self.entry.n self.entry.set.now) m.e }
    {
        if m.is_low(self.n, 3) {
            return true;
        }
        for i in (0..self.order()).rev() {
            let z = Monomial::read(self.set, WIDTH * i);
            if z.divides(m) && self.is_signal(m.over(z)) {
                return true;
            }
        }
        false
    }
}
