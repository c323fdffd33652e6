// The subsets of a set, each sifted once: every signal in turn is kept or dropped.
ghost use Rattle.std.specs.Prelude.{◌≡◌, [], ◌∷◌, ◌++◌, ◌≤◌, length};
ghost use Rattle.wiring.specs.Panel.{cards};
ghost use Rattle.wiring.specs.Reply.{numbers};
ghost use Rattle.wiring.specs.Terms.{records, system};
ghost use Rattle.wiring.specs.Sets.{monomials_of};
ghost use Rattle.wiring.specs.Answers.{judged, told, wires, Judgeable};
ghost use Rattle.wiring.specs.Claims.{Wide};
ghost use Rattle.walk.specs.Walk.{Finds};
ghost use Rattle.thin.specs.Subsets.{is_quadratic, Begun, Sifting, Bounded, undecided, Deciding};

use roster::roster as sets;
use wiring::held::Set;
use wiring::panel::SET_BYTES;
use wiring::reply::Reply;
use wiring::{answers, buffer};

// What the subsets that were sifted come to: the least size of a quadratic one, how many of them have it, and how many subsets were sifted: the steps.
#[derive(Clone, Copy)]
pub struct Best {
    pub order: usize,
    pub count: usize,
    pub steps: u64,
}

// What wiring says of a set with an empty buffer: the verdict alone.
pub(crate) fn verdict_of(n: usize, terms: &[u8], set: Set) -> Reply
    requires { Judgeable n terms.now set }
    ensures { numbers result ≡ (told (judged n (system (records terms.now)) (monomials_of set)) (wires n (system (records terms.now)) (monomials_of set)) 0).said }
{
    let mut none = [0u8; 0];
    answers::wire_set(n, terms, set, &mut none)
}

// Whether a set is quadratic.
fn is_quadratic(n: usize, terms: &[u8], set: Set) -> bool
    requires { Judgeable n terms.now set }
    ensures { result ≡ is_quadratic n (system (records terms.now)) (monomials_of set) }
{
    !matches!(verdict_of(n, terms, set), Reply::NotQuadratic { .. })
}

// Writes a set behind the first `count` of the list, where there is room. Without room it is only counted: a smaller set may yet begin the list anew.
// The buffer is the caller's, as include/planner.h declares it, so a count goes beside it.
fn join(out: &mut [u8], count: usize, set: Set)
    requires { Wide (monomials_of set) }
    ensures { (l : Finds) → count ≡ length l → Begun l out.old → Begun (l ++ (monomials_of set ∷ [])) out.new }
{
    if count < out.len() / SET_BYTES {
        buffer::put(out, SET_BYTES * count, &sets::record_of(set));
    }
}

// Sifts a subset: one that is quadratic is listed where none smaller was sifted before it.
fn sift(n: usize, terms: &[u8], set: Set, out: &mut [u8], best: Best) -> Best
    requires { Judgeable n terms.now set × Bounded best 1 }
    ensures { Sifting n terms.now (monomials_of set ∷ []) best out.old result out.new }
{
    let order = best.order;
    let count = best.count;
    let steps = best.steps + 1;
    if !is_quadratic(n, terms, set) {
        return Best { steps, ..best };
    }
    let size = set.len;
    if order < size {
        return Best { steps, ..best };
    }
    if size < order {
        buffer::clear(out);
        join(out, 0, set);
        return Best {
            order: size,
            count: 1,
            steps,
        };
    }
    join(out, count, set);
    Best {
        order: size,
        count: count + 1,
        steps,
    }
}

// Decides the signals of the given set from `at` on: each is kept, then dropped. So the subsets of one size come ascending.
pub(crate) fn decide(
    n: usize,
    terms: &[u8],
    given: Set,
    at: usize,
    kept: Set,
    out: &mut [u8],
    best: Best,
) -> Best
    requires { Deciding n terms.now given at kept × Bounded best (length (undecided given at kept)) }
    ensures { Sifting n terms.now (undecided given at kept) best out.old result out.new }
{
    if given.len <= at {
        return sift(n, terms, kept, out, best);
    }
    let m = given.m[at];
    let with = decide(n, terms, given, at + 1, sets::with_last(kept, m), out, best);
    decide(n, terms, given, at + 1, kept, out, with)
}
