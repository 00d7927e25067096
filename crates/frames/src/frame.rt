// Frames: what a line is.
ghost use Rattle.std.specs.Prelude.{◌≡◌, IfOk};
ghost use Rattle.frames.specs.Frames.{content, contents, frame_at, frame_of, kind_number, number_of, opened, read_frame};

use crate::digits::byte;
use crate::faults::{Fault, FrameFault};
use crate::kind::Kind;
use crate::lines::line;
use crate::payload::Payload;

// A frame of each kind.
#[derive(Clone, Copy)]
pub enum Frame<'a> {
    Header(Payload<'a>),
    Site(Payload<'a>),
    Table(Payload<'a>),
    Step(Payload<'a>),
    Counter(Payload<'a>),
    Play(Payload<'a>),
}

impl<'a> Frame<'a> {
    // The frame that a deck begins with, and the rest of the deck.
    pub fn read(deck: &'a [u8], number: u16) -> Result<(Frame<'a>, &'a [u8]), Fault>
        ensures value { contents result ≡ read_frame deck.now number }
        ensures number { IfOk result (λ p. number_of p.0 ≡ number) }
    {
        let (digits, rest) = line(deck, number)?;
        let frame = classify(digits, number)?;
        Ok((frame, rest))
    }

    // The number of the frame's line.
    pub fn number(self) -> u16
        ensures { result ≡ number_of self.entry }
    {
        match self {
            Frame::Header(payload)
            | Frame::Site(payload)
            | Frame::Table(payload)
            | Frame::Step(payload)
            | Frame::Counter(payload)
            | Frame::Play(payload) => payload.line,
        }
    }

    // The frame of a kind that holds this.
    fn of_kind(kind: Kind, payload: Payload<'a>) -> Frame<'a>
        ensures value { content result ≡ frame_of (kind_number kind) payload.entry.digits.now }
        ensures number { number_of result ≡ payload.entry.line }
    {
        match kind {
            Kind::Header => Frame::Header(payload),
            Kind::Site => Frame::Site(payload),
            Kind::Table => Frame::Table(payload),
            Kind::Step => Frame::Step(payload),
            Kind::Counter => Frame::Counter(payload),
            Kind::Play => Frame::Play(payload),
        }
    }
}

// The frame that the digits of a line are.
fn classify(digits: &[u8], number: u16) -> Result<Frame<'_>, FrameFault>
    ensures value { opened result ≡ frame_at digits.now number }
    ensures number { IfOk result (λ f. number_of f ≡ number) }
{
    let kind = Kind::try_from(byte(digits, 0)).map_err(|_| FrameFault::UnknownKind(number))?;
    if digits.len() != kind.line_length() {
        return Err(FrameFault::WrongLength(number));
    }
    let payload = Payload {
        digits: &digits[2..],
        line: number,
    };
    Ok(Frame::of_kind(kind, payload))
}
