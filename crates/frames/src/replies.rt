// The reply that a fault becomes.
ghost use Rattle.std.specs.Prelude.{◌≡◌, ◌/◌, ◌%◌, ◌<◌};
ghost use Rattle.frames.specs.Replies.{fault_layer, fault_line, fault_number, fault_reply, frame_number, hex, layer_number, layer_of, line_number, written};

use crate::faults::{Fault, FrameFault, Layer, LineFault};
use crate::lines::LINE_FEED;

// The first byte of the reply.
const FAULT: u8 = 0x8F;

impl Layer {
    pub fn number(self) -> u8
        ensures { result ≡ layer_number self }
    {
        self as u8
    }
}

// Kept: the cases of `LineFault` and `FrameFault` hold their line, and so have no numbers of their own.
impl LineFault {
    pub fn number(self) -> u8
        ensures { result ≡ line_number self }
    {
        match self {
            LineFault::Malformed(_) => 1,
            LineFault::TooLong => 16,
        }
    }
}

impl FrameFault {
    pub fn number(self) -> u8
        ensures { result ≡ frame_number self }
    {
        match self {
            FrameFault::UnknownKind(_) => 5,
            FrameFault::WrongLength(_) => 6,
            FrameFault::NotDue(_) => 7,
            FrameFault::OutOfRange(_) => 8,
            FrameFault::Ended(_) => 9,
            FrameFault::SecondStep(_) => 10,
        }
    }
}

impl Fault {
    pub fn layer(self) -> Layer
        ensures { result ≡ layer_of self }
    {
        match self {
            Fault::Line(_) => Layer::Line,
            Fault::Frame(_) => Layer::Frame,
        }
    }

    // The number of the line that has the fault; 0 for a fault of no line.
    pub fn line(self) -> u16
        ensures { result ≡ fault_line self }
    {
        match self {
            Fault::Line(LineFault::TooLong) => 0,
            Fault::Line(LineFault::Malformed(line))
            | Fault::Frame(
                FrameFault::UnknownKind(line)
                | FrameFault::WrongLength(line)
                | FrameFault::NotDue(line)
                | FrameFault::OutOfRange(line)
                | FrameFault::Ended(line)
                | FrameFault::SecondStep(line),
            ) => line,
        }
    }

    pub fn number(self) -> u8
        ensures { result ≡ fault_number self }
    {
        match self {
            Fault::Line(fault) => fault.number(),
            Fault::Frame(fault) => fault.number(),
        }
    }

    // The one line that the fault is answered by.
    pub fn reply(self) -> [u8; 11]
        ensures { result ≡ fault_reply (fault_layer self) (fault_line self) (fault_number self) }
    {
        reply(self.layer().number(), self.line(), self.number())
    }
}

// The line that answers a fault of any layer.
// Kept: the layer is a number here, as in the line, which may hold any; who has a `Layer` gives its number.
pub fn reply(layer: u8, line: u16, number: u8) -> [u8; 11]
    ensures { result ≡ fault_reply layer line number }
{
    let [high, low] = line.to_be_bytes();
    written_out([FAULT, layer, high, low, number])
}

// The line that five bytes are written as.
fn written_out(bytes: [u8; 5]) -> [u8; 11]
    ensures { result ≡ written bytes }
{
    let mut line = [LINE_FEED; 11];
    for (i, byte) in bytes.iter().enumerate() {
        line[2 * i] = high_digit(*byte);
        line[2 * i + 1] = low_digit(*byte);
    }
    line
}

// The first of a byte's two digits.
pub fn high_digit(byte: u8) -> u8
    ensures { result ≡ hex (byte / 16) }
{
    hex_digit(byte / 16)
}

// The second of them.
pub fn low_digit(byte: u8) -> u8
    ensures { result ≡ hex (byte % 16) }
{
    hex_digit(byte % 16)
}

#[tactic(auto, unfolding(crate::specs::Replies::hex))]
fn hex_digit(value: u8) -> u8
    requires { value < 16 }
    ensures { result ≡ hex value }
{
    if value < 10 {
        b'0' + value
    } else {
        b'A' - 10 + value
    }
}
