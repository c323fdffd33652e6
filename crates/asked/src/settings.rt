// What is asked for by numbers, each a word of the command line: seven ask for a plan, four for the thinning of a set,
// three for its wiring. The first three are the panel: how many variables, the marks of those that are signals, and the
// kit's limit on the degree.
ghost use Rattle.std.specs.Prelude.{◌≡◌};
ghost use Rattle.asked.specs.Settings.{asked, asked_thin, asked_wire, Roomy};

use lines::words;
use report::prepare::Settings;
use std::env::Env;

// The most sets that there is room for.
pub(crate) const MOST_SETS: usize = 20000;

// One word more than can be right tells that there are more.
const MOST_WORDS: usize = 9;

#[derive(Clone, Copy)]
pub enum Asked {
    Plan(Settings),
    Thin {
        n: u64,
        marks: u64,
        degree: u64,
        which: u64,
    },
    Wire {
        n: u64,
        marks: u64,
        degree: u64,
    },
}

// The plan that seven words ask for, read as numbers.
fn settings_of(
    n: Option<u64>,
    marks: Option<u64>,
    degree: Option<u64>,
    cap: Option<u64>,
    limit: Option<u64>,
    sets: Option<u64>,
    which: Option<u64>,
) -> Option<Asked>
    ensures { result ≡ asked n marks degree cap limit sets which }
{
    let s = Settings {
        n: n?,
        marks: marks?,
        degree: degree?,
        cap: cap?,
        limit: limit?,
        room: sets? as usize,
        which: which?,
    };
    if s.room <= MOST_SETS {
        Some(Asked::Plan(s))
    } else {
        None
    }
}

// The thinning that four words ask for, read as numbers.
fn thinning_of(
    n: Option<u64>,
    marks: Option<u64>,
    degree: Option<u64>,
    which: Option<u64>,
) -> Option<Asked>
    ensures { result ≡ asked_thin n marks degree which }
{
    Some(Asked::Thin {
        n: n?,
        marks: marks?,
        degree: degree?,
        which: which?,
    })
}

// The wiring that three words ask for, read as numbers.
fn wiring_of(n: Option<u64>, marks: Option<u64>, degree: Option<u64>) -> Option<Asked>
    ensures { result ≡ asked_wire n marks degree }
{
    Some(Asked::Wire {
        n: n?,
        marks: marks?,
        degree: degree?,
    })
}

// What the command line asks for, which has the program's name before the words; nothing where a word is wrong, or their
// number is.
pub(crate) fn read<R: Env>(rt: &R) -> Option<Asked>
    ensures { Roomy result }
{
    match words::count_words(rt, MOST_WORDS) {
        4 => wiring_of(
            words::number_at(rt, 1),
            words::number_at(rt, 2),
            words::number_at(rt, 3),
        ),
        5 => thinning_of(
            words::number_at(rt, 1),
            words::number_at(rt, 2),
            words::number_at(rt, 3),
            words::number_at(rt, 4),
        ),
        8 => settings_of(
            words::number_at(rt, 1),
            words::number_at(rt, 2),
            words::number_at(rt, 3),
            words::number_at(rt, 4),
            words::number_at(rt, 5),
            words::number_at(rt, 6),
            words::number_at(rt, 7),
        ),
        _ => None,
    }
}
