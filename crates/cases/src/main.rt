// Runs the decks on standard input one after the other, and prints the name and the replies of each.

#![tactic(auto)]

mod listing;

ghost use Rattle.std.specs.Prelude.{◌≡◌, IfOk, vec_len};

use listing::{Case, split_case};
use run::{CELLS, LEAST_OUTPUT, RECORDS, run};
use std::alloc::{AllocError, Global};
use std::io;
use std::io::{ErrorKind, Read, Write};
use theory::Move;

// What a run is lent.
#[derive(Drop)]
struct Lent {
    cells: Vec<u64>,
    trace: Vec<Move>,
    out: Vec<u8>,
}

fn lend(heap: Global) -> Result<Lent, AllocError>
    ensures { IfOk result (λ lent. (vec_len lent.cells ≡ 8192) × (vec_len lent.trace ≡ 256) × (vec_len lent.out ≡ 65536)) }
{
    Ok(Lent {
        cells: vec![in heap; 0; CELLS]?,
        trace: vec![in heap; Move::default(); RECORDS]?,
        out: vec![in heap; 0; LEAST_OUTPUT]?,
    })
}

// Prints the name and the replies of a deck.
fn print_replies(rt: &HostRuntime, name: &[u8], replies: &[u8]) -> io::Result<()> {
    let mut out = rt.stdout();
    out.write_all(b"# ")?;
    out.write_all(name)?;
    out.write_all(b"\n")?;
    out.write_all(replies)
}

// Runs a deck.
fn answer(rt: &HostRuntime, case: Case<'_>, lent: &mut Lent) -> io::Result<()> {
    let ran = run(
        rt.alloc(),
        case.deck,
        &mut lent.cells,
        &mut lent.trace,
        &mut lent.out,
    );
    match ran {
        Ok(count) => print_replies(rt, case.name, &lent.out.as_slice()[0..count]),
        Err(_) => Err(ErrorKind::OutOfMemory.into()),
    }
}

// Runs the decks of a listing.
fn answer_all(rt: &HostRuntime, listing: &[u8]) -> io::Result<()> {
    let mut lent = lend(rt.alloc())?;
    // Kept: an iterator of decks would have to end by hand at the first that is none, and is longer.
    let mut rest = listing;
    while !rest.is_empty() {
        let Some((case, after)) = split_case(rest) else {
            return Err(ErrorKind::InvalidData.into());
        };
        answer(rt, case, &mut lent)?;
        rest = after;
    }
    Ok(())
}

fn main(rt: HostRuntime) -> io::Result<()> {
    let mut listing = Vec::new(rt.alloc());
    rt.stdin().read_to_end(&mut listing)?;
    answer_all(&rt, listing.as_slice())
}
