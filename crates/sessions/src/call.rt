// The calls of a session and their replies, as values.
ghost use Rattle.std.specs.Prelude.{◌≡◌};
ghost use Rattle.sessions.specs.Calls.{refusal_number};

use checking::{Refusal as Unchecked, Verdict};
use plants::{Event, Mask, State};

// Why a session refuses a call, with the numbers of the refusals.
#[derive(Clone, Copy, PartialEq, Eq, Debug)]
pub enum Refusal {
    // a state count or the site count is not that of the opening
    CountDiffers = 20,
    // the session is closed
    Closed = 21,
    // the site is not 1 to n
    NoSite = 22,
    // the site has voted in this round
    HasVoted = 23,
    // a ballot is missing
    BallotMissing = 24,
    // the round is settled already
    IsSettled = 25,
    // the round is not settled
    NotSettled = 26,
    // the event is not below the event count
    NoEvent = 27,
    // the event is not allowed in this round
    NotAllowed = 28,
    // the plant has no such step
    NoStep = 29,
}

impl Refusal {
    // The refusal's number.
    pub fn number(self) -> u8
        ensures { result ≡ refusal_number self }
    {
        self as u8
    }
}

// A call of a session. What it brings stands beside it.
#[derive(Clone, Copy, PartialEq, Eq, Debug)]
pub enum Call {
    Open,
    Ballot(u8),
    Settle,
    Happen(Event),
}

// The reply to a call: the check's to an open, and otherwise the answer or the refusal.
#[derive(Clone, Copy)]
pub enum Reply {
    Checked(Result<Verdict, Unchecked>),
    Voted(Result<Mask, Refusal>),
    Allowed(Result<Mask, Refusal>),
    Moved(Result<State, Refusal>),
}
