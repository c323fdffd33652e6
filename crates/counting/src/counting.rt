// The counting rule: how often each quotient of a nonsquare by a member of V occurs, and whether so few of them can stand for all nonsquares.
//
// The set and the nonsquares lie side by side in lent bytes. No table of quotients is kept: each is counted where it is first met, and only whether
// the counts reach what is wanted is asked.
ghost use Rattle.std.specs.Prelude.{◌≡◌, ◌+◌, ◌*◌, ◌-◌, ◌/◌, ◌≤◌, ◌<◌, leb, ltb, length, get_or, take, drop};
ghost use Rattle.monomial.specs.Lists.{keep, gather};
ghost use Rattle.monomial.specs.Monomial.{one, width};
ghost use Rattle.monomial.specs.Claims.{Different};
ghost use Rattle.wiring.specs.Panel.{cards};
ghost use Rattle.wiring.specs.Signals.{tabled, signals_at};
ghost use Rattle.wiring.specs.Sockets.{can_build};
ghost use Rattle.counting.specs.Counting.{shares, hits, begins, up_to, frequent, quotients_of, counts, sum, closes};

use monomial::Monomial;
use monomial::width::WIDTH;
use wiring::panel::Panel;
use wiring::signals::Members;
use wiring::sockets;

// Whether m is q times a member of V.
#[tactic(auto, using(crate::proofs::counting::Laws::share_none, crate::proofs::counting::Laws::share_quotient, wiring::proofs::signals::Laws::signals_at_wide))]
fn is_multiple(v: Members, q: Monomial, m: Monomial) -> bool
    ensures { result ≡ shares (signals_at v.entry.n v.entry.set.now) q.e m.e }
{
    q.divides(m) && v.is_signal(m.over(q))
}

// Whether at least `often` of the list from `from` on are q times a member of V. It ends where too few are left.
fn recurs(list: &[u8], from: usize, v: Members, q: Monomial, often: usize) -> bool
    requires { from ≤ length list.now / width }
    ensures { result ≡ leb often (hits (signals_at v.entry.n v.entry.set.now) q.e (drop from (tabled list.now))) }
{
    let len = list.len() / WIDTH;
    let mut left = often;
    let mut a = from;
    // No `for`: it would test the end of the list besides, and planning took longer with it.
    while 0 < left {
        if len - a < left {
            return false;
        }
        if is_multiple(v, q, Monomial::read(list, WIDTH * a)) {
            left -= 1;
        }
        a += 1;
    }
    true
}

// Whether the quotient of the monomial at i by x may be, and is one that occurs so often, met there for the first time. The monomial at i is one of
// its multiples. What is left of the list is asked first: it is there that most quotients fail.
fn begins_at(panel: Panel, list: &[u8], i: usize, v: Members, x: Monomial, often: usize) -> bool
    requires inside { i < length list.now / width }
    requires some { 0 < often }
    ensures { result ≡ begins (can_build panel) (signals_at v.entry.n v.entry.set.now) often (take i (tabled list.now)) (drop (i + 1) (tabled list.now))
        (get_or (tabled list.now) i (one width)) x.e }
{
    let m = Monomial::read(list, WIDTH * i);
    if !x.divides(m) {
        return false;
    }
    let q = m.over(x);
    sockets::can_build(panel, q)
        && recurs(list, i + 1, v, q, often - 1)
        && !recurs(&list[..WIDTH * i], 0, v, q, 1)
}

// How many quotients occur so often, up to the cap, with those first met at i; `many` were met before.
fn tally_at(
    panel: Panel,
    list: &[u8],
    i: usize,
    v: Members,
    often: usize,
    many: usize,
    cap: usize,
) -> usize
    requires few { v.n ≤ width }
    requires inside { i < length list.now / width }
    requires some { 0 < often }
    requires low { many ≤ cap }
    ensures { result ≡ up_to cap (many + length (keep (begins (can_build panel) (signals_at v.entry.n v.entry.set.now) often (take i (tabled list.now))
        (drop (i + 1) (tabled list.now)) (get_or (tabled list.now) i (one width))) (signals_at v.entry.n v.entry.set.now))) }
{
    let mut met = many;
    for j in 0..v.len() {
        if cap <= met {
            break;
        }
        if begins_at(panel, list, i, v, v.signal(j), often) {
            met += 1;
        }
    }
    met
}

// How many quotients occur so often, up to the cap. One that is first met where too few are left does not. That no member of V occurs twice stays a clause, here and
// below: Members are made of any set.
fn frequent(panel: Panel, list: &[u8], v: Members, often: usize, cap: usize) -> usize
    requires few { v.n ≤ width }
    requires some { 0 < often }
    requires different { Different (signals_at v.n v.set.now) }
    ensures { result ≡ up_to cap (frequent (can_build panel) (signals_at v.entry.n v.entry.set.now) (tabled list.now) often) }
{
    let len = list.len() / WIDTH;
    let mut met = 0;
    for i in 0..len.saturating_sub(often - 1) {
        met = tally_at(panel, list, i, v, often, met, cap);
    }
    met
}

// Whether the `room` largest counts together are less than wanted: each count is as many as the numbers up to it, so of each number those that
// reach it are added up, at most `room` of them.
fn stays_below(panel: Panel, list: &[u8], v: Members, room: usize, wanted: usize) -> bool
    requires few { v.n ≤ width }
    requires roomy { 0 < room }
    requires different { Different (signals_at v.n v.set.now) }
    ensures { result ≡ ltb (sum (take room (counts (gather (quotients_of (can_build panel) (signals_at v.entry.n v.entry.set.now)) (tabled list.now))))) wanted }
{
    let mut left = wanted;
    for often in 1..=wanted {
        let many = frequent(panel, list, v, often, room);
        if left <= many {
            return false;
        }
        if many < 1 {
            return true;
        }
        left -= many;
    }
    false
}

// Whether a set with these nonsquares needs more new monomials than there is room for. Few nonsquares need no count, and where no quotient occurs
// often enough for its share, the others need not be counted.
pub fn closes(panel: Panel, list: &[u8], v: Members, room: usize) -> bool
    requires few { v.n ≤ width }
    requires low { 0 < room }
    requires high { room ≤ cards }
    requires different { Different (signals_at v.n v.set.now) }
    ensures { result ≡ closes (can_build panel) room (signals_at v.entry.n v.entry.set.now) (tabled list.now) }
{
    let len = list.len() / WIDTH;
    let own = room * (room + 1) / 2;
    if len <= own {
        return false;
    }
    let wanted = len - own;
    frequent(panel, list, v, wanted.div_ceil(room), 1) < 1
        || 1 < room && stays_below(panel, list, v, room, wanted)
}
