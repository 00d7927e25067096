// The problem type. Its invariant stands in the type, so that whoever has a problem may rely on it.
ghost use Rattle.std.specs.Prelude.{◌≡◌, ◌^◌, ◌<◌, true};
ghost use Rattle.control.specs.Ranges.{Counts, Rows, in_rows, within};

mod making;
mod questions;

use plants::Mask;

// How many sites there may be.
pub const SITES: u8 = 4;

// Who sees and who controls which event, and how the controllers' answers are fused. A bit of the modes makes an event
// disjunctive. Row k is that of site k + 1, and rows past the site count hold no bit.
// Kept: two lists of rows and not one list of pairs, since every question and every test reads one of them alone.
#[derive(Clone, Copy)]
pub struct Problem {
    events: u8,
    sites: u8,
    modes: Mask,
    seen: [Mask; 4],
    controlled: [Mask; 4],
    ghost counts: { Counts events sites },
    ghost below: { modes < 2 ^ events },
    ghost sights: { Rows events sites seen },
    ghost controls: { Rows events sites controlled },
    ghost chosen: { within modes (in_rows controlled) ≡ true },
}

// How the controllers' answers to an event are fused.
#[derive(Clone, Copy, PartialEq, Eq, Debug)]
pub enum Mode {
    // allowed when all controllers say yes
    Conjunctive,
    // allowed when at least one controller says yes
    Disjunctive,
}

// Why no problem can be made, with the numbers of the refusals.
#[derive(Clone, Copy, PartialEq, Eq, Debug)]
pub enum Unmade {
    // not 1 to 32 events
    EventCount = 41,
    // not 1 to 4 sites
    SiteCount = 42,
    // a bit at or above the event count, in the modes or in a kept row
    MaskBit = 43,
    // a mode bit for an event that no site controls
    ModeBit = 44,
}
