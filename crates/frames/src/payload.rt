// What a frame holds.
ghost use Rattle.std.specs.Prelude.{◌≡◌};
ghost use Rattle.frames.specs.Digits.{byte_at, mask_at};
ghost use Rattle.frames.specs.declared.faults.FrameFault.TheVariants.{OutOfRange};

use crate::digits::{byte, mask};
use crate::faults::FrameFault;
use plants::Mask;

// The digits after a frame's kind, and the number of its line.
#[derive(Clone, Copy)]
pub struct Payload<'a> {
    pub digits: &'a [u8],
    pub line: u16,
}

impl<'a> Payload<'a> {
    // The byte at a place, two digits to a byte.
    pub fn byte(self, place: u16) -> u8
        ensures { result ≡ byte_at self.entry.digits.now place }
    {
        byte(self.digits, place)
    }

    // The mask in the four bytes from a place on.
    pub fn mask(self, place: u8) -> Mask
        ensures { result ≡ mask_at self.entry.digits.now place }
    {
        mask(self.digits, place)
    }

    // The fault of a value that is out of range.
    pub fn out_of_range(self) -> FrameFault
        ensures { result ≡ OutOfRange self.entry.line }
    {
        FrameFault::OutOfRange(self.line)
    }
}
