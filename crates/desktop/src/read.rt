// Reading a listing: the operation on n, marks, the kit's limit, term records and a text. It assumes nothing of its input.
ghost use Rattle.std.specs.Prelude.{◌≡◌};
ghost use Rattle.wiring.specs.Sockets.{panel_of};
ghost use Rattle.wiring.specs.Reply.{outcome};
ghost use Rattle.wiring.specs.declared.reply.Reply.TheVariants.{Unreadable};
ghost use Rattle.wiring.specs.Terms.{records, system};
ghost use Rattle.reader.specs.Reader.{Readable};
ghost use Rattle.reader.specs.Said.{said};
ghost use Rattle.listing.specs.Readable.{listing};
ghost use Rattle.desktop.specs.Read.{known_to, refusal, unless_broken, judged, read_listing, Reading};

use super::{lines, names};
use listing::known::Known;
use listing::machine;
use roster::roster as sets;
use wiring::panel::{Panel, SET_BYTES};
use wiring::reply::Reply;
use wiring::system::System;
use wiring::{signals, sockets, terms};

// The most bytes that a text may have.
pub const MOST_TEXT: usize = 4096;

// What is said of a listing, and the record of its set: zeros after a refusal.
// The set stands beside the reply and no Result holds it: the clause of `read_listing` gives every byte of it, after a refusal too.
#[derive(Clone, Copy)]
pub struct Heard {
    pub reply: Reply,
    pub set: [u8; SET_BYTES],
}

fn refused(reply: Reply) -> Heard
    ensures { outcome result.reply result.set ≡ refusal reply }
{
    Heard {
        reply,
        set: [0u8; SET_BYTES],
    }
}

// Judges a readable text: its names are to form a set, and its lines to be true.
fn judge(panel: Panel, s: System, text: &[u8]) -> Heard
    requires reading { Reading panel text.now }
    requires reads { Readable (listing (known_to panel)) text.now }
    ensures { outcome result.reply result.set ≡ judged panel (system (records s.entry.terms.now)) text.now }
{
    let known = Known::from(panel);
    let names = names::names_of(known, text);
    let Some(set) = sets::set_of(panel, names) else {
        return refused(Reply::BadSet);
    };
    let v = signals::signals_of(panel.n, names);
    match lines::judge_lines(known, s, v, text) {
        Ok(()) => Heard {
            reply: Reply::Done {
                order: names.len as u64,
                count: 0,
                steps: 0,
            },
            set,
        },
        Err(broken) => refused(Reply::FalseLine {
            place: broken.place,
        }),
    }
}

// Reads a text, once the rest is in order.
fn read_text(panel: Panel, s: System, text: &[u8]) -> Heard
    requires { Reading panel text.now }
    ensures { outcome result.reply result.set
        ≡ unless_broken Unreadable (said (listing (known_to panel)) text.now) (judged panel (system (records s.entry.terms.now)) text.now) }
{
    match machine::read(Known::from(panel), text) {
        Ok(()) => judge(panel, s, text),
        Err(broken) => refused(Reply::Unreadable {
            place: broken.place,
        }),
    }
}

// Reads a listing for a system: whether it is right, and the set that it has found.
pub fn read_listing(n: u64, marks: u64, degree: u64, terms: &[u8], text: &[u8]) -> Heard
    ensures { outcome result.reply result.set ≡ read_listing (panel_of n marks degree) terms.now text.now }
{
    if !sockets::panel_right(n, marks, degree) {
        return refused(Reply::Setting);
    }
    if !terms::length_right(terms) {
        return refused(Reply::Length);
    }
    if MOST_TEXT < text.len() {
        return refused(Reply::Length);
    }
    let panel = Panel {
        n: n as usize,
        marks,
        degree,
    };
    if let Err(fault) = terms::fault_of(panel, terms) {
        return refused(Reply::from(fault));
    }
    // Each total that a line is held against is summed, so nothing need be known of them.
    let system = System {
        terms,
        cancels: true,
    };
    read_text(panel, system, text)
}
