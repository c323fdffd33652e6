// Planning: the settings, the records, and the levels from 0 on.
ghost use Rattle.std.specs.Prelude.{◌≡◌, ◌/◌, ◌≤◌, ◌<◌, length, replicate};
ghost use Rattle.monomial.specs.Monomial.{width};
ghost use Rattle.wiring.specs.Panel.{cards, set_bytes};
ghost use Rattle.wiring.specs.Sockets.{panel_of};
ghost use Rattle.wiring.specs.Reply.{outcome};
ghost use Rattle.wiring.specs.Terms.{records, system, CleanTerms};
ghost use Rattle.walk.specs.Walk.{kit_rules};
ghost use Rattle.walk.specs.Plan.{plan, said, settings_right, planned};

use super::walk;
use super::walk::{Frame, State, Stop};
use counting::verdict::LIST_BYTES;
use wiring::panel::{CARDS, MOST_STEPS, Panel};
use wiring::reply::Reply;
use wiring::system::System;
use wiring::{buffer, sockets, terms};

// Whether n, the marks, the kit's degree, the cap and the limit are in range.
fn settings_right(n: u64, marks: u64, degree: u64, cap: u64, limit: u64) -> bool
    ensures { result ≡ settings_right (panel_of n marks degree) cap limit }
{
    sockets::panel_right(n, marks, degree)
        && cap <= CARDS as u64
        && 1 <= limit
        && limit <= MOST_STEPS
}

// The levels from 0 to the cap; the buffer is all zeros at the start. One list of nonsquares serves all sets: each is done with it before the next
// is opened.
fn climb(terms: &[u8], out: &mut [u8], panel: Panel, cap: usize, limit: u64) -> Reply
    requires few { panel.n ≤ width }
    requires capped { cap ≤ cards }
    requires clean { CleanTerms terms.now }
    requires blank { out.old ≡ replicate (length out.old) 0 }
    ensures { outcome result out.new ≡ said (plan (kit_rules panel) panel.n (system (records terms.now)) limit (length out.old / set_bytes) cap) (length out.old) }
{
    let any = System {
        terms,
        cancels: true,
    };
    let system = System {
        terms,
        cancels: any.may_cancel(),
    };
    let empty = [0u8; 0];
    let mut list = [0u8; LIST_BYTES];
    let mut steps: u64 = 0;
    for k in 0..cap + 1 {
        let order = k as u64;
        let f = Frame {
            system,
            panel,
            level: k,
            limit,
        };
        match walk::open(&f, out, &mut list, &empty, State { steps, count: 0 }) {
            Ok(s) => {
                steps = s.steps;
                if 0 < s.count {
                    return Reply::Done {
                        order,
                        count: s.count as u64,
                        steps,
                    };
                }
            }
            Err(stop) => {
                buffer::clear(out);
                return match stop {
                    Stop::Spent => Reply::Spent {
                        order,
                        steps: limit,
                    },
                    Stop::Full(steps) => Reply::Full { order, steps },
                };
            }
        }
    }
    Reply::Nothing {
        order: cap as u64 + 1,
        steps,
    }
}

// Plans: every smallest quadratic set, or how far the walk got.
pub fn plan(
    n: u64,
    marks: u64,
    degree: u64,
    cap: u64,
    limit: u64,
    terms: &[u8],
    out: &mut [u8],
) -> Reply
    ensures { outcome result out.new ≡ planned (panel_of n marks degree) cap limit terms.now (length out.old) }
{
    buffer::clear(out);
    if !settings_right(n, marks, degree, cap, limit) {
        return Reply::Setting;
    }
    if !terms::length_right(terms) {
        return Reply::Length;
    }
    let panel = Panel {
        n: n as usize,
        marks,
        degree,
    };
    match terms::fault_of(panel, terms) {
        Ok(()) => climb(terms, out, panel, cap as usize, limit),
        Err(fault) => Reply::from(fault),
    }
}
