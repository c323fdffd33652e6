// What follows for an opened set below its level: it is found, it is closed, or the pairs of a nonsquare are run.
ghost use Rattle.std.specs.Prelude.{◌≤◌, length};
ghost use Rattle.wiring.specs.Poly.{plain};
ghost use Rattle.wiring.specs.Derivative.{derivative};
ghost use Rattle.wiring.specs.Quadratic.{nonsquares};
ghost use Rattle.wiring.specs.Signals.{signals_at};
ghost use Rattle.wiring.specs.Sockets.{can_build};
ghost use Rattle.wiring.specs.Terms.{records, system};
ghost use Rattle.counting.specs.Verdict.{list_bytes, Weighing, Judged};

use super::{counting, gathering};
use monomial::Monomial;
use monomial::width::{CONSTANTS, WIDTH};
use wiring::panel::{CARDS, Panel};
use wiring::signals::Members;
use wiring::system::System;

// Nonsquares that the lent list need hold, and its bytes: of more a set is closed, however much room there is below the level.
pub const MOST_LISTED: usize = CARDS * CONSTANTS + CARDS * (CARDS + 1) / 2;

pub const LIST_BYTES: usize = WIDTH * MOST_LISTED;

// The set is found, it is closed, or the pairs of this nonsquare are to be run.
#[derive(Clone, Copy)]
pub enum Verdict {
    Found,
    Closed,
    Split(Monomial),
}

// A quotient occurs at most once for each member of V: where there are more nonsquares than that allows, the rest of them is not looked for.
pub fn verdict_of(s: System, list: &mut [u8], panel: Panel, v: Members, room: usize) -> Verdict
    requires weighed { Weighing s.terms.now v.n v.set.now s.cancels room }
    requires lent { list_bytes ≤ length list.old }
    ensures { Judged (can_build panel) room (signals_at v.entry.n v.entry.set.now) (nonsquares plain (signals_at v.entry.n v.entry.set.now) (derivative plain (system (records s.entry.terms.now)))) result }
{
    let members = v.len();
    let most = room * members + room * (room + 1) / 2;
    let Some(len) = gathering::gather(s, list, v, most) else {
        return Verdict::Closed;
    };
    if len < 1 {
        return Verdict::Found;
    }
    let listed = &list[..WIDTH * len];
    if counting::closes(panel, listed, v, room) {
        return Verdict::Closed;
    }
    let m = gathering::cheapest_of(listed).unwrap();
    Verdict::Split(m)
}
