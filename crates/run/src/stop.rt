// Why a deck is not run to its end.
ghost use Rattle.std.specs.Prelude.{◌≡◌};
ghost use Rattle.replies.specs.Writing.{reply};
ghost use Rattle.run.specs.Runs.{reply_of_fault, run_number};
ghost use Rattle.run.specs.Stops.{stop_of};
ghost use Rattle.run.specs.declared.stop.Fault.TheVariants.{Check, Make};
ghost use Rattle.run.specs.declared.stop.Stop.TheVariants.{Faulty};

use checking::Refusal as Unchecked;
use control::Unmade;
use decks::Unread;
use frames::{Fault as TextFault, Layer};
use replies::Reply;

// Why running is refused, with the numbers of the refusals: the first that fits.
#[derive(Clone, Copy, PartialEq, Eq, Debug)]
pub enum Refusal {
    // the output has fewer than 65,536 bytes
    ShortOutput = 33,
    // there was no memory for what the deck yields
    OutOfMemory = 34,
}

impl Refusal {
    // The refusal's number.
    pub fn number(self) -> u8
        ensures { result ≡ run_number self }
    {
        self as u8
    }
}

// A fault of any layer.
#[derive(Clone, Copy)]
pub enum Fault {
    // of a line or a frame of the text
    Text(TextFault),
    // no problem can be made
    Make(Unmade),
    // the check is refused
    Check(Unchecked),
}

impl Fault {
    // The one line that the fault is answered by. Make's faults stand at line 1, and those of the check at line 0.
    pub fn reply(self) -> Reply
        ensures { reply result ≡ reply_of_fault self }
    {
        match self {
            Fault::Text(fault) => Reply::Fault(
                fault.layer().number(),
                fault.line(),
                fault.number(),
            ),
            Fault::Make(unmade) => Reply::Fault(Layer::Make.number(), 1, unmade.number()),
            Fault::Check(refusal) => Reply::Fault(Layer::Check.number(), 0, refusal.number()),
        }
    }
}

// What comes in the way of the replies.
// Kept: of the form of decks' own enum for another kind of fault; of one generic type there could be no `From` between two
// instances in this crate.
#[derive(Clone, Copy)]
pub(crate) enum Stop {
    Faulty(Fault),
    OutOfMemory,
}

impl From<Unread> for Stop {
    ghost from_gives = { λ unread r. r ≡ stop_of unread };

    fn from(unread: Unread) -> Stop {
        match unread {
            Unread::Faulty(fault) => Stop::Faulty(Fault::Text(fault)),
            Unread::OutOfMemory => Stop::OutOfMemory,
        }
    }
}

impl From<Unmade> for Stop {
    ghost from_gives = { λ unmade r. r ≡ Faulty (Make unmade) };

    fn from(unmade: Unmade) -> Stop {
        Stop::Faulty(Fault::Make(unmade))
    }
}

impl From<Unchecked> for Stop {
    ghost from_gives = { λ refusal r. r ≡ Faulty (Check refusal) };

    fn from(refusal: Unchecked) -> Stop {
        Stop::Faulty(Fault::Check(refusal))
    }
}
