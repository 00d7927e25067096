// What a check answers.
ghost use Rattle.std.specs.Prelude.{◌≡◌};
ghost use Rattle.checking.specs.Answers.{refusal_number};

use plants::Event;

// Kept: no clash is an answer that boxes may rely on, and `None` of an `Option` would say it by an absence.
#[derive(Clone, Copy, PartialEq, Eq, Debug)]
pub enum Verdict {
    // no event has a counterexample: some local rules generate exactly the legal strings
    Clear,
    // the lowest event that has a counterexample, and the fewest moves of one; a run of that many moves stands at the
    // front of the trace
    Clash(Event, usize),
}

// Why a check is refused, with the numbers of the refusals: the first that fits.
#[derive(Clone, Copy, PartialEq, Eq, Debug)]
pub enum Refusal {
    // the plant has no states
    VoidPlant = 11,
    // the specification has no states
    VoidSpec = 12,
    // the state counts multiply to more than 64
    TooManyPairs = 13,
    // fewer cells than pairs to the power m + 1, where m is the most controllers of one event
    TooFewCells = 14,
    // the fewest moves of a counterexample for the lowest event that has one exceed the trace's length
    ShortTrace = 15,
}

impl Refusal {
    // The refusal's number.
    pub fn number(self) -> u8
        ensures { result ≡ refusal_number self }
    {
        self as u8
    }
}
