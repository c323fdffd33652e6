// Thinning: the operation on n, marks, term records and a set record. It assumes nothing of its input.
ghost use Rattle.std.specs.Prelude.{◌≡◌, ◌/◌, length, replicate};
ghost use Rattle.wiring.specs.Panel.{set_bytes};
ghost use Rattle.wiring.specs.Sockets.{panel_of};
ghost use Rattle.wiring.specs.Reply.{outcome};
ghost use Rattle.wiring.specs.Terms.{records, system};
ghost use Rattle.wiring.specs.Sets.{monomials_of};
ghost use Rattle.wiring.specs.Answers.{judged, Judgeable};
ghost use Rattle.walk.specs.Plan.{said};
ghost use Rattle.thin.specs.Thin.{thinning, thinned_by, thinned};

use super::subsets;
use super::subsets::Best;
use wiring::held::Set;
use wiring::panel::SET_BYTES;
use wiring::reply::Reply;
use wiring::{answers, buffer};

// Lists the smallest quadratic subsets of a set over zeros.
fn thin_set(n: usize, terms: &[u8], set: Set, out: &mut [u8]) -> Reply
    requires { Judgeable n terms.now set × (out.old ≡ replicate (length out.old) 0) }
    ensures { outcome result out.new ≡ said (thinning n (system (records terms.now)) (monomials_of set) (length out.old / set_bytes)) (length out.old) }
{
    let start = Best {
        order: set.len,
        count: 0,
        steps: 0,
    };
    let best = subsets::decide(n, terms, set, 0, Set::EMPTY, out, start);
    let order = best.order as u64;
    let steps = best.steps;
    if out.len() / SET_BYTES < best.count {
        buffer::clear(out);
        return Reply::Full { order, steps };
    }
    Reply::Done {
        order,
        count: best.count as u64,
        steps,
    }
}

// Judges a set first: one that is not quadratic is refused as wiring refuses it.
fn thin_judged(n: usize, terms: &[u8], set: Set, out: &mut [u8]) -> Reply
    requires { Judgeable n terms.now set × (out.old ≡ replicate (length out.old) 0) }
    ensures { outcome result out.new ≡ thinned_by (judged n (system (records terms.now)) (monomials_of set)) (thinning n (system (records terms.now)) (monomials_of set) (length out.old / set_bytes)) (length out.old) }
{
    let said = subsets::verdict_of(n, terms, set);
    if let Reply::NotQuadratic { .. } = said {
        return said;
    }
    thin_set(n, terms, set, out)
}

// Thins: every smallest quadratic subset of the set that is given, ascending, then zeros; after a refusal only zeros.
pub fn thin(n: u64, marks: u64, degree: u64, terms: &[u8], set: &[u8], out: &mut [u8]) -> Reply
    ensures { outcome result out.new ≡ thinned (panel_of n marks degree) terms.now set.now (length out.old) }
{
    buffer::clear(out);
    match answers::accept(n, marks, degree, terms, set) {
        Ok(set) => thin_judged(n as usize, terms, set, out),
        Err(said) => said,
    }
}
