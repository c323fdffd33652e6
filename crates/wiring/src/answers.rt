// Wiring: verdict and list of a set in one operation on n, marks, the kit's limit, term records and a set record. It assumes nothing of its input.
ghost use Rattle.std.specs.Prelude.{◌≡◌, length, replicate};
ghost use Rattle.wiring.specs.Sockets.{panel_of};
ghost use Rattle.wiring.specs.Reply.{outcome};
ghost use Rattle.wiring.specs.Terms.{records, system};
ghost use Rattle.wiring.specs.Sets.{monomials_of};
ghost use Rattle.wiring.specs.Answers.{judged, told, wires, wired, Judgeable, Gives};

use super::held::Set;
use super::panel::{Panel, SET_BYTES};
use super::reply::Reply;
use super::system::System;
use super::wires::Unmet;
use super::{buffer, sets, signals, sockets, terms};

// Reads what is given, with the refusals that come before a set is judged: once the rest is in order, the record decides. What does something with a
// given set begins with it.
pub fn accept(n: u64, marks: u64, degree: u64, terms: &[u8], set: &[u8]) -> Result<Set, Reply>
    ensures { Gives (panel_of n marks degree) terms.now set.now result }
{
    if !sockets::panel_right(n, marks, degree) {
        return Err(Reply::Setting);
    }
    if !terms::length_right(terms) {
        return Err(Reply::Length);
    }
    let Some(record) = set.as_array() else {
        return Err(Reply::Length);
    };
    let panel = Panel {
        n: n as usize,
        marks,
        degree,
    };
    terms::fault_of(panel, terms)?;
    sets::read_set(panel, record).ok_or(Reply::BadSet)
}

// Judges a set and writes its list over zeros, in one pass. Who wants the verdict alone lends an empty buffer.
pub fn wire_set(n: usize, terms: &[u8], set: Set, out: &mut [u8]) -> Reply
    requires { Judgeable n terms.now set × (out.old ≡ replicate (length out.old) 0) }
    ensures { outcome result out.new ≡ told (judged n (system (records terms.now)) (monomials_of set)) (wires n (system (records terms.now)) (monomials_of set)) (length out.old) }
{
    let v = signals::signals_of(n, set);
    let order = set.len as u64;
    // Each total is summed here, so nothing need be known of them.
    let system = System {
        terms,
        cancels: true,
    };
    match system.wire_rows(v, out) {
        Ok(Some(count)) => Reply::Done {
            order,
            count: count as u64,
            steps: 0,
        },
        Ok(None) => {
            buffer::clear(out);
            Reply::Full { order, steps: 0 }
        }
        Err(Unmet { left }) => {
            buffer::clear(out);
            Reply::NotQuadratic {
                order,
                place: left as u64,
            }
        }
    }
}

// Wires a given set: the verdict, and the list in the buffer, then zeros; after a refusal only zeros.
pub fn wire(n: u64, marks: u64, degree: u64, terms: &[u8], set: &[u8], out: &mut [u8]) -> Reply
    ensures { outcome result out.new ≡ wired (panel_of n marks degree) terms.now set.now (length out.old) }
{
    buffer::clear(out);
    match accept(n, marks, degree, terms, set) {
        Ok(set) => wire_set(n as usize, terms, set, out),
        Err(said) => said,
    }
}
