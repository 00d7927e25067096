// Why no replies are written.
ghost use Rattle.std.specs.Prelude.{◌≡◌, Some};
ghost use Rattle.fuse.specs.Lines.{line};
ghost use Rattle.fuse.specs.declared.failure.Failure.TheVariants.{Running};

use std::alloc::AllocError;
use std::fmt;

#[derive(Clone, Copy)]
pub enum Failure {
    Reading,
    Running,
    Writing,
}

// The line that says why.
impl fmt::Display for Failure {
    ghost output = { λ failure. Some (line failure) };

    fn fmt<W: fmt::Write>(&self, f: &mut fmt::Formatter<W>) -> fmt::Result {
        match self {
            Failure::Reading => f.write_str("cannot read the deck"),
            Failure::Running => f.write_str("out of memory"),
            Failure::Writing => f.write_str("cannot write the replies"),
        }
    }
}

impl From<AllocError> for Failure {
    ghost from_gives = { λ _ r. r ≡ Running };

    fn from(_: AllocError) -> Failure {
        Failure::Running
    }
}
