// Term records: 12 bytes each, and what may be wrong with them.
ghost use Rattle.std.specs.Prelude.{◌≡◌, ◌+◌, ◌*◌, ◌/◌, ◌≤◌, ◌<◌, length, take};
ghost use Rattle.monomial.specs.Lists.{any};
ghost use Rattle.wiring.specs.Panel.{term_bytes};
ghost use Rattle.wiring.specs.Terms.{length_right, record_at, records, exponents_right, coefficient_right, term_right, alike, fault};

use super::panel::{
    COEFFICIENT_AT, LEAST_COEFFICIENT, MONOMIAL_AT, MOST_COEFFICIENT, Panel, TERM_BYTES,
    TERM_EXPONENT, TERMS_BYTES,
};
use super::reply::Reply;
use super::{coefficient, sockets};
use monomial::Monomial;
use monomial::width::WIDTH;

// What is wrong with a record; places count from 1.
#[derive(Clone, Copy, Debug, PartialEq, Eq)]
pub enum Fault {
    Wrong(u64),
    Repeated(u64),
}

// A refusal of the records, as it is answered.
impl From<Fault> for Reply {
    ghost use Rattle.wiring.specs.Answers.{reply_of};

    ghost from_gives = { λ f r. r ≡ reply_of f };

    fn from(f: Fault) -> Reply {
        match f {
            Fault::Wrong(place) => Reply::Term { place },
            Fault::Repeated(place) => Reply::Twice { place },
        }
    }
}

// Whether term records have a length that records can have.
#[tactic(auto, unfolding(crate::specs::Terms::length_right))]
pub fn length_right(terms: &[u8]) -> bool
    ensures { result ≡ length_right terms.now }
{
    terms.len() % TERM_BYTES == 0 && terms.len() <= TERMS_BYTES
}

// The exponents are at most most, and zero beyond xn.
pub(crate) fn exponents_right(most: u8, n: usize, m: Monomial) -> bool
    ensures { result ≡ exponents_right most n m.e }
{
    (0..WIDTH).all(|i| m.e[i] <= most && (i < n || m.e[i] == 0))
}

// A coefficient is nonzero, from -1,000,000 to 1,000,000.
#[tactic(auto, unfolding(crate::specs::Terms::coefficient_right, crate::specs::Coefficient::is_zero))]
fn coefficient_right(c: i32) -> bool
    ensures { result ≡ coefficient_right c }
{
    c != 0 && (LEAST_COEFFICIENT..=MOST_COEFFICIENT).contains(&c)
}

// Every field of record number t keeps its rule. Records and a number, here and below: a `System` has only records that were asked this.
#[tactic(auto, unfolding(crate::specs::Terms::term_right))]
fn term_right(panel: Panel, terms: &[u8], t: usize) -> bool
    requires { term_bytes * t + term_bytes ≤ length terms.now }
    ensures { result ≡ term_right panel (record_at terms.now t) }
{
    let at = TERM_BYTES * t;
    let equation = usize::from(terms[at]);
    (1..=panel.n).contains(&equation)
        && !sockets::is_marked(panel.marks, equation - 1)
        && terms[at + 1] == 0
        && exponents_right(
            TERM_EXPONENT,
            panel.n,
            Monomial::read(terms, at + MONOMIAL_AT),
        )
        && coefficient_right(coefficient::decode(terms, at + COEFFICIENT_AT))
}

// Records t and u have the same equation and exponents.
fn records_alike(terms: &[u8], t: usize, u: usize) -> bool
    requires one { term_bytes * t + term_bytes ≤ length terms.now }
    requires other { term_bytes * u + term_bytes ≤ length terms.now }
    ensures { result ≡ alike (record_at terms.now t) (record_at terms.now u) }
{
    let m = Monomial::read(terms, TERM_BYTES * t + MONOMIAL_AT);
    terms[TERM_BYTES * t] == terms[TERM_BYTES * u]
        && m == Monomial::read(terms, TERM_BYTES * u + MONOMIAL_AT)
}

// An earlier record has the equation and exponents of record t.
fn repeats(terms: &[u8], t: usize) -> bool
    requires { term_bytes * t + term_bytes ≤ length terms.now }
    ensures { result ≡ any (alike (record_at terms.now t)) (take t (records terms.now)) }
{
    (0..t).any(|u| records_alike(terms, t, u))
}

// The first record with a fault decides.
pub fn fault_of(panel: Panel, terms: &[u8]) -> Result<(), Fault>
    ensures { result ≡ fault panel (records terms.now) }
{
    for t in 0..terms.len() / TERM_BYTES {
        if !term_right(panel, terms, t) {
            return Err(Fault::Wrong(t as u64 + 1));
        }
        if repeats(terms, t) {
            return Err(Fault::Repeated(t as u64 + 1));
        }
    }
    Ok(())
}
