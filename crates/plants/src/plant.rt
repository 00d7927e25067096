// The plant interface. A plant is spoken of by its meaning alone: whoever uses one learns nothing else of it.
ghost use Rattle.std.specs.Prelude.{◌≡◌};
ghost use Rattle.plants.specs.Machine.{Machine, Lawful};

// An event is a number below EVENTS.
pub type Event = u8;

// A set of events: bit e stands for event e.
pub type Mask = u32;

// A state is a number below the plant's count.
pub type State = u8;

// How many events there are.
pub const EVENTS: Event = 32;

// How many states a plant may have.
pub const MOST_STATES: State = 64;

pub trait Plant {
    // what the plant means
    ghost meaning: { Self → Machine };

    // How many states there are; none for a void plant.
    fn count(&self) -> State
        ensures { result ≡ (meaning self.now).count };

    fn first(&self) -> State
        ensures { result ≡ (meaning self.now).first };

    // The events that the plant knows.
    fn alphabet(&self) -> Mask
        ensures { result ≡ (meaning self.now).alphabet };

    // The next state, for any state and any event number; none where the plant has no such step.
    fn step(&self, state: State, event: Event) -> Option<State>
        ensures { result ≡ (meaning self.now).step state event };

    ghost lawful: { (x : Self) → Lawful (meaning x) };
}
