// The session type.
ghost use Rattle.std.specs.Prelude.{◌*◌, ◌≤◌};

mod gates;
mod happening;
mod opening;
mod settling;
mod voting;

use plants::{Mask, State};
use sites::PairSet;

// A session is closed when new.
#[derive(Clone, Copy)]
pub struct Session {
    open: Option<Open>,
}

// What an open session keeps: the counts of its opening, the plant's state, a record for each site, and the events that
// fusion allows, once the round is settled.
#[derive(Clone, Copy)]
struct Open {
    plant_count: State,
    spec_count: State,
    site_count: u8,
    state: State,
    sites: [Site; 4],
    settled: Option<Mask>,
    ghost few: { plant_count * spec_count ≤ 64 },
}

// What a session keeps of one site: its estimate, as a mask of pairs, and its ballot in this round.
#[derive(Clone, Copy)]
pub struct Site {
    pub estimate: PairSet,
    pub ballot: Option<Mask>,
}
