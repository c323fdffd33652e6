// The child of a set by a factor pair, in a lent buffer. Sets lie side by side in lent bytes, ascending.
ghost use Rattle.std.specs.Prelude.{◌≡◌, false, ◌&&◌, ◌+◌, ◌*◌, ◌≤◌, leb, length};
ghost use Rattle.monomial.specs.Monomial.{width};
ghost use Rattle.monomial.specs.Lists.{any, insert_by};
ghost use Rattle.monomial.specs.Order.{same, before};
ghost use Rattle.monomial.specs.Claims.{Ascending};
ghost use Rattle.wiring.specs.Sockets.{can_build};
ghost use Rattle.wiring.specs.Signals.{tabled, listed, signals_at};
ghost use Rattle.lister.specs.Cheap.{Holds};
ghost use Rattle.walk.specs.Walk.{kit_rules, child, opens};
ghost use Rattle.walk.specs.Turns.{Child, Growing};

use lister::cheap::Held;
use monomial::Monomial;
use monomial::width::WIDTH;
use wiring::panel::Panel;
use wiring::{buffer, sockets};

// Puts m in its place among the first len monomials, which ascend and lack it. One buffer in fixed memory serves children of any size, so a length goes beside it.
fn put_in(s: &mut [u8], len: usize, m: Monomial)
    requires { width * len + width ≤ length s.old }
    ensures { Ascending before (listed len s.old) → any (same m.e) (listed len s.old) ≡ false →
        listed (len + 1) s.new ≡ insert_by same before m.e (listed len s.old) }
{
    for i in (0..len).rev() {
        let x = Monomial::read(s, WIDTH * i);
        if x < m {
            m.write(s, WIDTH * (i + 1));
            return;
        }
        x.write(s, WIDTH * (i + 1));
    }
    m.write(s, 0);
}

// The set with m, as so many monomials of the buffer, where there is room and m may be. The room is asked first: it is often taken, and asked for nothing.
fn with_one(level: usize, panel: Panel, set: &[u8], next: &mut [u8], m: Monomial) -> Option<usize>
    requires { Growing level set.now next.old }
    ensures { any (same m.e) (tabled set.now) ≡ false →
        Child (can_build panel m.e && leb (length (insert_by same before m.e (tabled set.now))) level) (insert_by same before m.e (tabled set.now)) result next.new }
{
    let len = set.len() / WIDTH;
    if level <= len || !sockets::can_build(panel, m) {
        return None;
    }
    buffer::put(next, 0, set);
    put_in(next, len, m);
    Some(len + 1)
}

// The set with a and b, where there is room for both and both may be.
fn with_two(
    level: usize,
    panel: Panel,
    set: &[u8],
    next: &mut [u8],
    a: Monomial,
    b: Monomial,
) -> Option<usize>
    requires { Growing level set.now next.old }
    ensures { any (same b.e) (tabled set.now) ≡ false →
        any (same a.e) (insert_by same before b.e (tabled set.now)) ≡ false →
        Child (can_build panel a.e && can_build panel b.e && leb (length (insert_by same before a.e (insert_by same before b.e (tabled set.now)))) level)
        (insert_by same before a.e (insert_by same before b.e (tabled set.now))) result next.new }
{
    let len = set.len() / WIDTH;
    if level <= len + 1 || !sockets::can_build(panel, a) || !sockets::can_build(panel, b) {
        return None;
    }
    buffer::put(next, 0, set);
    put_in(next, len, b);
    put_in(next, len + 1, a);
    Some(len + 2)
}

// The set plus those of a, b not in V, where these may be and it has at most level monomials. What V holds of the pair is known before anything is
// copied, and one monomial is added in one place: laid into the pair runner so, it copies no set where nothing is opened.
pub(crate) fn offer(
    level: usize,
    panel: Panel,
    set: &[u8],
    next: &mut [u8],
    a: Monomial,
    b: Monomial,
    held: Held,
) -> Option<usize>
    requires growing { Growing level set.now next.old }
    requires holds { Holds (signals_at panel.n set.now) (a.e, b.e) held }
    ensures { Child (opens (kit_rules panel) panel.n level (tabled set.now) (a.e, b.e)) (child panel.n (tabled set.now) (a.e, b.e)) result next.new }
{
    let m = match (held.first, held.second) {
        (true, true) => {
            buffer::put(next, 0, set);
            return Some(set.len() / WIDTH);
        }
        (false, false) => return with_two(level, panel, set, next, a, b),
        (true, false) => b,
        (false, true) => a,
    };
    with_one(level, panel, set, next, m)
}
