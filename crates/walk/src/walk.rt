// Opening a set and running its pairs: each calls for the other, and the room left below the level falls.
ghost use Rattle.std.specs.Prelude.{true, false, ℕ, ◌+◌, ◌-◌, ◌/◌, ◌≤◌, ◌<◌, length};
ghost use Rattle.wiring.specs.Panel.{set_bytes};
ghost use Rattle.wiring.specs.Terms.{records, system};
ghost use Rattle.wiring.specs.Signals.{tabled};
ghost use Rattle.walk.specs.Walk.{Finds, kit_rules, opened, tried_all, run, kept};
ghost use Rattle.walk.specs.Listing.{Shown};
ghost use Rattle.walk.specs.Turns.{Tells, Openable, Ready, Splits, Found, Weighed, Stepped, PassedBy};

use super::{children, listing};
use counting::verdict;
use counting::verdict::{LIST_BYTES, Verdict};
use lister::passes;
use monomial::Monomial;
use monomial::width::WIDTH;
use wiring::panel::{Panel, SET_BYTES};
use wiring::signals::Members;
use wiring::system::System;

// What stays the same through a level.
#[derive(Clone, Copy)]
pub struct Frame<'a> {
    pub system: System<'a>,
    pub panel: Panel,
    pub level: usize,
    pub limit: u64,
}

// The steps taken and the number of finds.
#[derive(Clone, Copy)]
pub struct State {
    pub steps: u64,
    pub count: usize,
}

// Why the walk stops short of its end: the next step would pass the limit, or a find had no room after so many steps.
#[derive(Clone, Copy)]
pub enum Stop {
    Spent,
    Full(u64),
}

// What opening a set comes to where the walk goes on: its state, and the nonsquare whose pairs are to be run, where there is one.
#[derive(Clone, Copy)]
pub struct Opened {
    pub state: State,
    pub split: Option<Monomial>,
}

// A found set, once its step is taken.
fn found(out: &mut [u8], set: &[u8], st: State) -> Result<State, Stop>
    requires { Found set.now st.count out.old }
    ensures { (finds : Finds) → Shown finds st.count out.old →
        Tells result out.new (kept (length out.old / set_bytes) (tabled set.now) st.steps finds) }
{
    match listing::keep(out, st.count, set) {
        Some(count) => Ok(State { count, ..st }),
        None => Err(Stop::Full(st.steps)),
    }
}

// Whether a set is found, and else whether it goes on and with which nonsquare. At its level it only may be found: nothing is counted there.
fn judge(f: &Frame, list: &mut [u8; LIST_BYTES], set: &[u8]) -> Verdict
    requires openable { Openable f.now.panel.n f.now.level set.now }
    ensures { Weighed (kit_rules f.now.panel) f.now.panel.n f.now.system.terms.now f.now.level set.now result }
{
    let v = Members { n: f.panel.n, set };
    let len = v.order();
    if f.level <= len {
        if f.system.is_unmet(v) {
            return Verdict::Closed;
        }
        return Verdict::Found;
    }
    verdict::verdict_of(f.system, list, f.panel, v, f.level - len)
}

// Takes the step of opening a set, and says what follows.
fn take_step(
    f: &Frame,
    out: &mut [u8],
    list: &mut [u8; LIST_BYTES],
    set: &[u8],
    st: State,
) -> Result<Opened, Stop>
    requires ready { Ready f.now.panel.n f.now.level set.now st.count out.old }
    ensures { Stepped (kit_rules f.now.panel) f.now.panel.n f.now.system.terms.now f.now.level f.now.limit set.now st out.old result out.new }
{
    let taken = st.steps;
    if f.limit <= taken {
        return Err(Stop::Spent);
    }
    let next = State {
        steps: taken + 1,
        ..st
    };
    match judge(f, list, set) {
        Verdict::Found => {
            let state = found(out, set, next)?;
            Ok(Opened { state, split: None })
        }
        Verdict::Closed => Ok(Opened {
            state: next,
            split: None,
        }),
        Verdict::Split(m) => Ok(Opened {
            state: next,
            split: Some(m),
        }),
    }
}

// Opens a set: one step, and then its pairs.
#[cycle(open_pairs)]
pub(crate) fn open(
    f: &Frame,
    out: &mut [u8],
    list: &mut [u8; LIST_BYTES],
    set: &[u8],
    st: State,
) -> Result<State, Stop>
    requires ready { Ready f.now.panel.n f.now.level set.now st.count out.old }
    ensures { (d : ℕ) (finds : Finds) → f.now.level - length (tabled set.now) < d → Shown finds st.count out.old →
        Tells result out.new
        (run f.now.limit (length out.old / set_bytes) (opened (kit_rules f.now.panel) f.now.panel.n (system (records f.now.system.terms.now)) f.now.level d (tabled set.now)) st.steps finds) }
{
    let o = take_step(f, out, list, set, st)?;
    match o.split {
        Some(m) => pairs(f, out, list, set, m, o.state),
        None => Ok(o.state),
    }
}

// Pairs that open nothing: one step each, and nothing else is done.
fn pass_by(limit: u64, st: State, pairs: u64) -> Result<State, Stop>
    ensures { PassedBy limit st pairs result }
{
    if pairs < 1 {
        return Ok(st);
    }
    if limit < pairs || limit - pairs < st.steps {
        return Err(Stop::Spent);
    }
    Ok(State {
        steps: st.steps + pairs,
        ..st
    })
}

// Runs the factor pairs of m, the cheap ones first: one step each, and a child is walked to its end before the next pair. So one buffer serves all
// children. Where there is room for one more signal only, the rest of the pairs opens nothing and is only counted.
#[cycle(open_pairs)]
fn pairs(
    f: &Frame,
    out: &mut [u8],
    list: &mut [u8; LIST_BYTES],
    set: &[u8],
    m: Monomial,
    st: State,
) -> Result<State, Stop>
    requires ready { Ready f.now.panel.n f.now.level set.now st.count out.old }
    requires splits { Splits f.now.panel.n f.now.system.terms.now f.now.level set.now m.e }
    ensures { (d : ℕ) (finds : Finds) → f.now.level - length (tabled set.now) ≤ d → Shown finds st.count out.old →
        Tells result out.new
        (run f.now.limit (length out.old / set_bytes)
        (tried_all (kit_rules f.now.panel) f.now.panel.n (system (records f.now.system.terms.now)) f.now.level
        (opened (kit_rules f.now.panel) f.now.panel.n (system (records f.now.system.terms.now)) f.now.level d) (tabled set.now) m.e)
        st.steps finds) }
{
    let v = Members { n: f.panel.n, set };
    let all = v.order() + 1 < f.level;
    let mut child = [0u8; SET_BYTES];
    let mut cur = st;
    let mut at = passes::start(m);
    // A loop: which pair is the next is the lister's, who goes from its place; what is left to list from there is its measure.
    loop {
        let p = passes::find(v, m, all, at);
        let Some(held) = p.held else {
            if all {
                return Ok(cur);
            }
            return pass_by(f.limit, cur, passes::left(m, p.at.listed));
        };
        if f.limit <= cur.steps {
            return Err(Stop::Spent);
        }
        cur.steps += 1;
        let a = p.at.a;
        if let Some(len) = children::offer(f.level, f.panel, set, &mut child, a, m.over(a), held) {
            cur = open(f, out, list, &child[..WIDTH * len], cur)?;
        }
        at = passes::behind(m, p.at);
    }
}
