// What a deck yields.
ghost use Rattle.std.specs.Prelude.{◌≤◌, length};
ghost use Rattle.decks.specs.Decks.{Only, Reads, most_bytes};

use crate::reader::Reader;
use crate::unread::Unread;
use frames::{Fault, LineFault};
use plants::{Counter, Event, Mask, Product, Table};
use std::alloc::Global;

// How many bytes a deck may have.
pub const MOST_BYTES: usize = 16_384;

// Plain numbers and a row of masks for each site, which a problem can be made of; the plant, the product of its table and
// its counter; the specification's table; and the events to play, in order.
#[derive(Drop)]
pub struct Deck {
    pub events: u8,
    pub sites: u8,
    pub modes: Mask,
    // Kept: a problem is made of two lists of rows, and these are given to it as they stand.
    pub seen: [Mask; 4],
    pub controlled: [Mask; 4],
    pub plant: Product<Table, Counter>,
    pub spec: Table,
    pub plays: Vec<Event>,
}

impl Deck {
    // Reads a text to its end or to its first fault.
    pub fn read(heap: Global, text: &[u8]) -> Result<Deck, Unread>
        ensures reads { Reads text.now result }
        ensures only { Only text.now result }
    {
        if text.len() > MOST_BYTES {
            return Err(Unread::Faulty(Fault::Line(LineFault::TooLong)));
        }
        read_frames(heap, text)
    }
}

// The frames of a text of few enough bytes, one after the other.
fn read_frames(heap: Global, text: &[u8]) -> Result<Deck, Unread>
    requires { length text.now ≤ most_bytes }
    ensures { Reads text.now result }
{
    // Kept: an iterator of frames would count its lines in the same way, and need a bound on their number besides.
    let mut reader = Reader::new(heap);
    let mut rest = text;
    let mut number = 1;
    while !rest.is_empty() {
        rest = reader.take(heap, rest, number)?;
        number += 1;
    }
    Ok(reader.finish(number)?)
}
