// The finds in the lent buffer, as set records: in sorted place, without repeats.
ghost use Rattle.std.specs.Prelude.{◌≡◌, ℕ, ◌+◌, ◌*◌, ◌/◌, ◌≤◌, length, get_or, IfSome};
ghost use Rattle.std.proofs.Math.Seq.{paste};
ghost use Rattle.wiring.specs.Panel.{set_bytes};
ghost use Rattle.wiring.specs.Signals.{tabled};
ghost use Rattle.wiring.specs.Sets.{set_record};
ghost use Rattle.walk.specs.Walk.{Finds, kept};
ghost use Rattle.walk.specs.Listing.{Lies, Shown, Compares, Sought, KeptAs};

// The buffer is the caller's, as include/planner.h declares it, and the walk's state says how many finds it holds: so a count goes beside it. That a set lies whole
// in its bytes stays a clause: a type for it would be built in `keep` alone.

use std::cmp::Ordering;
use wiring::panel::SET_BYTES;

// The byte at i of the record of a set: behind the bytes of its monomials there are zeros. So no record need be made of it.
fn byte_at(set: &[u8], i: usize) -> u8
    ensures { result ≡ get_or set.now i 0 }
{
    set.get(i).copied().unwrap_or(0)
}

// How a record stands to that of the set.
fn compare(s: &[u8], set: &[u8]) -> Ordering
    requires whole { length s.now ≡ set_bytes }
    requires lies { Lies set.now }
    ensures { Compares s.now (set_record (tabled set.now)) result }
{
    for i in 0..SET_BYTES {
        let order = s[i].cmp(&byte_at(set, i));
        if order != Ordering::Equal {
            return order;
        }
    }
    Ordering::Equal
}

// The place of a set: how many finds stand before it. None where it is listed already.
fn place_of(s: &[u8], count: usize, set: &[u8]) -> Option<usize>
    requires lies { Lies set.now }
    requires room { set_bytes * count ≤ length s.now }
    ensures within { IfSome result (λ i. i ≤ count) }
    ensures sought { (finds : Finds) → Shown finds count s.now → Sought (tabled set.now) finds result }
{
    for i in 0..count {
        let at = SET_BYTES * i;
        match compare(&s[at..at + SET_BYTES], set) {
            Ordering::Less => {}
            Ordering::Equal => return None,
            Ordering::Greater => return Some(i),
        }
    }
    Some(count)
}

// Writes the record of the set over the bytes from at on: the bytes of its monomials, and zeros behind them. One by one, and no `copy_from_slice`: that would
// call memmove, and include/planner.h promises that nothing is called but memcpy and memset.
fn put(out: &mut [u8], at: usize, set: &[u8])
    requires lies { Lies set.now }
    requires room { at + set_bytes ≤ length out.old }
    ensures { out.new ≡ paste out.old at (set_record (tabled set.now)) set_bytes }
{
    for i in 0..SET_BYTES {
        out[at + i] = byte_at(set, i);
    }
}

// Keeps a found set, listed already or in its place, and gives the new count; none where there is no room.
pub(crate) fn keep(out: &mut [u8], count: usize, set: &[u8]) -> Option<usize>
    requires lies { Lies set.now }
    requires room { set_bytes * count ≤ length out.old }
    ensures { (finds : Finds) (taken : ℕ) → Shown finds count out.old →
        KeptAs result taken out.new (kept (length out.old / set_bytes) (tabled set.now) taken finds) }
{
    let Some(place) = place_of(out, count, set) else {
        return Some(count);
    };
    if out.len() / SET_BYTES <= count {
        return None;
    }
    let at = SET_BYTES * place;
    out.copy_within(at..SET_BYTES * count, at + SET_BYTES);
    put(out, at, set);
    Some(count + 1)
}
