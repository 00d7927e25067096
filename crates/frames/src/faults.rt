// Faults: an enum for each layer of the text. Each case holds the number of the line that has the fault, counted from 1.
ghost use Rattle.std.specs.Prelude.{◌≡◌};
ghost use Rattle.frames.specs.declared.faults.Fault.TheVariants.{Line, Frame};

// The layers of faults, with their numbers: the text's lines and frames, and what is made and checked of it.
#[derive(Clone, Copy, PartialEq, Eq, Debug)]
pub enum Layer {
    Line = 1,
    Frame = 2,
    Make = 3,
    Check = 4,
}

// Faults of the line layer.
#[derive(Clone, Copy, PartialEq, Eq, Debug)]
pub enum LineFault {
    // no line stands here
    Malformed(u16),
    // the deck is too long to be looked at: a fault of no line
    TooLong,
}

// Faults of the frame layer.
#[derive(Clone, Copy, PartialEq, Eq, Debug)]
pub enum FrameFault {
    UnknownKind(u16),
    WrongLength(u16),
    // the kind may not follow what has been read
    NotDue(u16),
    OutOfRange(u16),
    // the deck ends before the specification's table
    Ended(u16),
    // a second step from one state on one event
    SecondStep(u16),
}

// A fault of a line or of a frame.
#[derive(Clone, Copy, PartialEq, Eq, Debug)]
pub enum Fault {
    Line(LineFault),
    Frame(FrameFault),
}

impl From<LineFault> for Fault {
    ghost from_gives = { λ fault r. r ≡ Line fault };

    fn from(fault: LineFault) -> Fault {
        Fault::Line(fault)
    }
}

impl From<FrameFault> for Fault {
    ghost from_gives = { λ fault r. r ≡ Frame fault };

    fn from(fault: FrameFault) -> Fault {
        Fault::Frame(fault)
    }
}
