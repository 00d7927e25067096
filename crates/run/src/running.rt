// Running a deck.
ghost use Rattle.std.specs.Prelude.{◌≤◌, length};
ghost use Rattle.decks.specs.Said.{says};
ghost use Rattle.run.specs.Only.{Only};
ghost use Rattle.run.specs.Runs.{Answered, Made, Ran, least_output};

use crate::showing::{conclude, put};
use crate::stop::{Refusal, Stop};
use control::{Arrangement, Problem, Unmade};
use decks::Deck;
use replies::MOST_MOVES;
use std::alloc::Global;
use theory::Move;

// How many bytes an output has at least: enough for the replies to every deck.
pub const LEAST_OUTPUT: usize = 65_536;

// How many cells and records of a trace the programs lend.
pub const CELLS: usize = 8_192;

pub const RECORDS: usize = MOST_MOVES;

// Reads a deck to its first fault, checks it, and plays its events. Writes all replies as lines to the front of the output
// and answers their length; a fault becomes one line. Refuses an output that is too short, and else want of memory, and then
// leaves cells, trace and output as they were. Of the trace it uses at most 256 records. What cells and trace hold decides at
// most which of the shortest runs a clash shows.
pub fn run(
    heap: Global,
    text: &[u8],
    cells: &mut [u64],
    trace: &mut [Move],
    out: &mut [u8],
) -> Result<usize, Refusal>
    ensures ran { Ran text.now cells.old cells.new trace.old trace.new out.old out.new result }
    ensures only { Only text.now (length cells.old) (length trace.old) }
{
    perform(heap, text, cells, trace, out)
}

// The run itself.
fn perform(
    heap: Global,
    text: &[u8],
    cells: &mut [u64],
    trace: &mut [Move],
    out: &mut [u8],
) -> Result<usize, Refusal>
    ensures { Ran text.now cells.old cells.new trace.old trace.new out.old out.new result }
{
    if out.len() < LEAST_OUTPUT {
        return Err(Refusal::ShortOutput);
    }
    match answer(heap, text, cells, trace, out) {
        Ok(count) => Ok(count),
        Err(Stop::Faulty(fault)) => Ok(put(fault.reply(), out)),
        Err(Stop::OutOfMemory) => Err(Refusal::OutOfMemory),
    }
}

// The replies of a deck without a fault.
fn answer(
    heap: Global,
    text: &[u8],
    cells: &mut [u64],
    trace: &mut [Move],
    out: &mut [u8],
) -> Result<usize, Stop>
    requires { least_output ≤ length out.old }
    ensures { Answered text.now cells.old cells.new trace.old trace.new out.old out.new result }
{
    let deck = Deck::read(heap, text)?;
    let problem = make(&deck)?;
    let arrangement = Arrangement::new(&problem, &deck.plant, &deck.spec);
    let count = conclude(&arrangement, deck.plays.as_slice(), cells, trace, out)?;
    Ok(count)
}

// The problem of a deck.
fn make(deck: &Deck) -> Result<Problem, Unmade>
    ensures { Made (says deck.now) result }
{
    let mut problem = Problem::new();
    problem.make(
        deck.events,
        deck.sites,
        deck.modes,
        deck.seen,
        deck.controlled,
    )?;
    Ok(problem)
}
