// The reader: what has been read so far decides which frame may follow.
ghost use Rattle.std.specs.Prelude.{◌≡◌, true, is_ok};
ghost use Rattle.plants.specs.Machine.{void};
ghost use Rattle.plants.specs.Tables.{means};
ghost use Rattle.frames.specs.Frames.{content, number_of};
ghost use Rattle.decks.specs.Order.{Placed, frame_fault, moved, start};
ghost use Rattle.decks.specs.Reader.{Answers, state};

mod due;
mod text;

use crate::deck::Deck;
use crate::role::Role;
use crate::stage::Stage;
use crate::unread::Unread;
use frames::{Frame, FrameFault};
use plants::{Counter, Product, Table};
use std::alloc::Global;

#[derive(Drop)]
pub(crate) struct Reader {
    stage: Stage,
    deck: Deck,
}

impl Reader {
    // A reader that has read nothing.
    pub(crate) fn new(heap: Global) -> Reader
        ensures { state result ≡ start }
    {
        Reader {
            stage: Stage::Header,
            deck: Deck {
                events: 0,
                sites: 0,
                modes: 0,
                seen: [0; 4],
                controlled: [0; 4],
                plant: Product {
                    left: no_table(heap),
                    right: Counter {
                        up: 0,
                        down: 0,
                        limit: 0,
                    },
                },
                spec: no_table(heap),
                plays: Vec::new(heap),
            },
        }
    }

    // Takes the next frame, or refuses it: its kind first, and then its values.
    // Kept: one match of state and kind, since it is the table of what may follow.
    fn accept(&mut self, heap: Global, frame: Frame<'_>) -> Result<(), Unread>
        requires { Placed (state self.old) }
        ensures value { Answers result (frame_fault (state self.old) (content frame.entry) (number_of frame.entry)) }
        ensures after { is_ok result ≡ true → state self.new ≡ moved (state self.old) (content frame.entry) }
    {
        match (self.stage, frame) {
            (Stage::Header, Frame::Header(payload)) => self.header(payload)?,
            (Stage::Site(due), Frame::Site(payload)) => self.site(due, payload)?,
            (Stage::PlantTable, Frame::Table(payload)) => self.table(heap, Role::Plant, payload)?,
            (Stage::PlantSteps, Frame::Step(payload)) => self.step(Role::Plant, payload)?,
            (Stage::PlantSteps, Frame::Counter(payload)) => self.counter(payload)?,
            (Stage::PlantSteps | Stage::SpecTable, Frame::Table(payload)) => {
                self.table(heap, Role::Spec, payload)?
            }
            (Stage::SpecSteps, Frame::Step(payload)) => self.step(Role::Spec, payload)?,
            (Stage::SpecSteps | Stage::Plays, Frame::Play(payload)) => self.play(payload)?,
            (_, frame) => return Err(FrameFault::NotDue(frame.number()).into()),
        }
        Ok(())
    }
}

// The void table, which stands where none has been read.
fn no_table(heap: Global) -> Table
    ensures { means result ≡ void }
{
    Table {
        count: 0,
        first: 0,
        alphabet: 0,
        row: Vec::new(heap),
    }
}
