// What a reader of listings is told of the system before it reads.
ghost use Rattle.std.specs.Prelude.{◌≡◌};
ghost use Rattle.listing.specs.Known.{known_to};

use wiring::panel::{CARDS, Panel};

// What is asked of the reader: how many variables, which of them are signals (bit i - 1 marks xi), how many new names there may be.
// No ghost field says that it is fair: it is made of any settings, before they are found to be in range.
#[derive(Clone, Copy)]
pub struct Known {
    pub n: u64,
    pub marks: u64,
    pub cards: u64,
}

// What the panel makes known to the reader of its listings.
impl From<Panel> for Known {
    ghost from_gives = { λ panel known. known ≡ known_to panel };

    fn from(panel: Panel) -> Known {
        Known {
            n: panel.n as u64,
            marks: panel.marks,
            cards: CARDS as u64,
        }
    }
}
