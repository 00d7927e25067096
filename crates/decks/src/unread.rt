// Why a deck yields nothing.
ghost use Rattle.std.specs.Prelude.{◌≡◌};
ghost use Rattle.frames.specs.declared.faults.Fault.TheVariants.{Frame};
ghost use Rattle.decks.specs.declared.unread.Unread.TheVariants.{Faulty, OutOfMemory};

use frames::{Fault, FrameFault};
use std::alloc::{AllocError, AllocFailed};

// Kept: crate run stops for its own faults in the same form; were both one generic type, run could not say how one of its
// instances becomes another.
#[derive(Clone, Copy, PartialEq, Eq, Debug)]
pub enum Unread {
    Faulty(Fault),
    // there was no memory for what the deck yields
    OutOfMemory,
}

impl From<Fault> for Unread {
    ghost from_gives = { λ fault r. r ≡ Faulty fault };

    fn from(fault: Fault) -> Unread {
        Unread::Faulty(fault)
    }
}

impl From<FrameFault> for Unread {
    ghost from_gives = { λ fault r. r ≡ Faulty (Frame fault) };

    fn from(fault: FrameFault) -> Unread {
        Unread::Faulty(Fault::Frame(fault))
    }
}

impl From<AllocError> for Unread {
    ghost from_gives = { λ _ r. r ≡ OutOfMemory };

    fn from(_error: AllocError) -> Unread {
        Unread::OutOfMemory
    }
}

impl<T: Drop> From<AllocFailed<T>> for Unread {
    ghost from_gives = { λ _ r. r ≡ OutOfMemory };

    fn from(_refused: AllocFailed<T>) -> Unread {
        Unread::OutOfMemory
    }
}
