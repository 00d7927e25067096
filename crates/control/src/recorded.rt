// The audit of a recorded list of events, the oldest first.
ghost use Rattle.std.specs.Prelude.{◌≡◌};
ghost use Rattle.control.specs.Arrangements.{meant};
ghost use Rattle.control.specs.Audits.{Audited, followed};

use crate::arrangement::Arrangement;
use crate::pair::{Pair, PairStep};
use plants::{Event, Plant};

// How a list stops being a legal string.
#[derive(Clone, Copy, PartialEq, Eq, Debug)]
pub enum Stop {
    // an event that is not below the event count
    NoEvent,
    // the plant has no such step
    NoStep,
    // the step is bad
    Bad,
}

// The list is a legal string up to this place, counted from 0, and no further.
#[derive(Clone, Copy, PartialEq, Eq, Debug)]
pub struct Stopped {
    pub at: usize,
    pub how: Stop,
}

impl<'a, P: Plant, S: Plant> Arrangement<'a, P, S> {
    // Whether a recorded list is a legal string, or where it stops being one and how.
    pub fn audit(&self, events: &[Event]) -> Result<(), Stopped>
        ensures { Audited (meant self.now) events.now result }
    {
        let mut pair = self.first();
        for (at, event) in events.iter().enumerate() {
            match self.follow(pair, *event) {
                Ok(next) => pair = next,
                Err(how) => return Err(Stopped { at, how }),
            }
        }
        Ok(())
    }

    // The pair that an event leads to by a legal step.
    fn follow(&self, pair: Pair, event: Event) -> Result<Pair, Stop>
        ensures { result ≡ followed (meant self.now) pair event }
    {
        if event >= self.problem.events() {
            return Err(Stop::NoEvent);
        }
        match self.step(pair, event) {
            PairStep::NoStep => Err(Stop::NoStep),
            PairStep::Bad => Err(Stop::Bad),
            PairStep::Legal(next) => Ok(next),
        }
    }
}
