// A counter: one event counts up to a limit, another counts down to 0.
ghost use Rattle.std.specs.Prelude.{◌≡◌};
ghost use Rattle.plants.specs.Counters.{counter, counts};
ghost use Rattle.plants.specs.Laws.{counter_lawful};

use crate::masks::singleton;
use crate::plant::{EVENTS, Event, MOST_STATES, Mask, Plant, State};

#[derive(Clone, Copy)]
pub struct Counter {
    pub up: Event,
    pub down: Event,
    pub limit: State,
}

// Where every counter starts.
const START: State = 0;

impl Counter {
    fn is_sound(&self) -> bool
        ensures { result ≡ counts self.now.up self.now.down self.now.limit }
    {
        self.limit == 0
            || self.limit < MOST_STATES
                && self.up != self.down
                && self.up < EVENTS
                && self.down < EVENTS
    }
}

impl Plant for Counter {
    ghost meaning = { λ c. counter c.up c.down c.limit };

    ghost lawful = { λ c. counter_lawful c.up c.down c.limit };

    fn count(&self) -> State {
        if self.is_sound() { self.limit + 1 } else { 0 }
    }

    fn first(&self) -> State {
        START
    }

    fn alphabet(&self) -> Mask {
        if self.is_sound() && self.limit > 0 {
            singleton(self.up) | singleton(self.down)
        } else {
            0
        }
    }

    fn step(&self, state: State, event: Event) -> Option<State> {
        if !self.is_sound() {
            None
        } else if event == self.up && state < self.limit {
            Some(state + 1)
        } else if event == self.down && state > 0 && state <= self.limit {
            Some(state - 1)
        } else {
            None
        }
    }
}
