// A table: a byte for each state and event.
ghost use Rattle.std.specs.Prelude.{◌≡◌, ℕ, ◌<◌, true, false, is_ok, vec_items, IfOk};
ghost use Rattle.plants.specs.Masks.{bit, width};
ghost use Rattle.plants.specs.Tables.{admits, blank, fits, means, table, with_step};
ghost use Rattle.plants.specs.Laws.{table_lawful};

use crate::masks::contains;
use crate::plant::{EVENTS, Event, MOST_STATES, Mask, Plant, State};
use std::alloc::{AllocError, Global};

// Byte 32 × q + e of the row is the next state from q on e; a byte at or above the count is no step.
#[derive(Drop)]
pub struct Table {
    pub count: State,
    pub first: State,
    pub alphabet: Mask,
    pub row: Vec<u8>,
}

// Why a step does not fit a table.
#[derive(Clone, Copy, PartialEq, Eq, Debug)]
pub enum Misfit {
    // one of its states is no state of the table, or its event is not in the alphabet
    OutOfRange,
    // the table has a step from that state on that event already
    SecondStep,
}

// The byte of an empty place: no count is above it.
const NO_STEP: u8 = 255;

impl Table {
    // A table of a given size that has no step yet.
    pub fn empty(
        heap: Global,
        count: State,
        first: State,
        alphabet: Mask,
    ) -> Result<Table, AllocError>
        ensures { IfOk result (λ t. means t ≡ blank count first alphabet) }
    {
        let row = empty_row(heap, count)?;
        Ok(Table {
            count,
            first,
            alphabet,
            row,
        })
    }

    // Adds one step, or refuses it and leaves the table as it was.
    pub fn put(&mut self, from: State, event: Event, to: State) -> Result<(), Misfit>
        ensures value { result ≡ admits (means self.old) from event to }
        ensures after { is_ok result ≡ true → means self.new ≡ with_step (means self.old) from event to }
        ensures same { is_ok result ≡ false → self.new ≡ self.old }
    {
        if from >= self.count() || to >= self.count() || !self.knows(event) {
            return Err(Misfit::OutOfRange);
        }
        if self.step(from, event).is_some() {
            return Err(Misfit::SecondStep);
        }
        self.row[EVENTS as usize * from as usize + event as usize] = to;
        Ok(())
    }

    // Whether an event is in the alphabet.
    fn knows(&self, event: Event) -> bool
        ensures value { result ≡ bit (means self.now).alphabet event }
        ensures event { result ≡ true → event < width }
    {
        contains(self.alphabet(), event)
    }

    fn is_sound(&self) -> bool
        ensures { result ≡ fits self.now.count self.now.first self.now.row.items }
    {
        1 <= self.count
            && self.count <= MOST_STATES
            && self.first < self.count
            && self.row.len() == EVENTS as usize * self.count as usize
    }
}

// A row with no step in it, whatever the table's first state and alphabet.
fn empty_row(heap: Global, count: State) -> Result<Vec<u8>, AllocError>
    ensures { IfOk result (λ row. (first alphabet : ℕ) → table count first alphabet row.items ≡ blank count first alphabet) }
{
    vec![in heap; NO_STEP; EVENTS as usize * count as usize]
}

impl Plant for Table {
    ghost meaning = { means };

    ghost lawful = { λ t. table_lawful t.count t.first t.alphabet (vec_items t.row) };

    fn count(&self) -> State {
        if self.is_sound() { self.count } else { 0 }
    }

    fn first(&self) -> State {
        if self.is_sound() { self.first } else { 0 }
    }

    fn alphabet(&self) -> Mask {
        if self.is_sound() { self.alphabet } else { 0 }
    }

    fn step(&self, state: State, event: Event) -> Option<State> {
        if !self.is_sound() || state >= self.count || !contains(self.alphabet, event) {
            return None;
        }
        let next = self.row[EVENTS as usize * state as usize + event as usize];
        if next < self.count { Some(next) } else { None }
    }
}
