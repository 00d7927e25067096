// Runs the deck on standard input, and writes its replies to standard output. A deck with a fault has a reply too. Where
// nothing can be read, run or written, one line on standard error says so, and the status is 1.

#![tactic(auto)]

mod failure;

ghost use Rattle.std.specs.Prelude.{◌≡◌, MatchResult};
ghost use Rattle.fuse.specs.Answers.{Answers};

use decks::MOST_BYTES;
use failure::Failure;
use run::{CELLS, LEAST_OUTPUT, RECORDS, run};
use std::alloc::Global;
use std::io;
use std::io::{ErrorKind, Read, Write};
use std::process::ExitCode;
use theory::Move;

// One byte more than a deck may have: so many show that a deck is too long.
const MOST_READ: u64 = MOST_BYTES as u64 + 1;

// The text of the deck on standard input. Of a longer input no more is read than shows that it is too long.
fn read_deck(rt: &HostRuntime) -> io::Result<Vec<u8>> {
    let mut text = Vec::new(rt.alloc());
    rt.stdin().take(MOST_READ).read_to_end(&mut text)?;
    Ok(text)
}

// The replies to a deck. Want of memory is the one failure here.
fn replies_to(heap: Global, text: &[u8]) -> Result<Vec<u8>, Failure>
    ensures { MatchResult result (λ replies. Answers text.now replies.items) (λ failure. failure ≡ Failure.Running) }
{
    let mut cells = vec![in heap; 0; CELLS]?;
    let mut trace = vec![in heap; Move::default(); RECORDS]?;
    let mut out = vec![in heap; 0; LEAST_OUTPUT]?;
    match run(heap, text, &mut cells, &mut trace, &mut out) {
        Ok(count) => {
            out.truncate(count);
            Ok(out)
        }
        Err(_) => Err(Failure::Running),
    }
}

fn fuse(rt: &HostRuntime) -> Result<(), Failure> {
    let text = match read_deck(rt) {
        Ok(text) => text,
        Err(error) if error.kind() == ErrorKind::OutOfMemory => return Err(Failure::Running),
        Err(_) => return Err(Failure::Reading),
    };
    let replies = replies_to(rt.alloc(), text.as_slice())?;
    rt.stdout()
        .write_all(replies.as_slice())
        .map_err(|_| Failure::Writing)
}

fn main(rt: HostRuntime) -> ExitCode {
    match fuse(&rt) {
        Ok(()) => ExitCode::SUCCESS,
        Err(failure) => {
            let _ = eprintln!(rt; "fuse: {failure}");
            ExitCode::FAILURE
        }
    }
}
