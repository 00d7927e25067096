// Frames: the lines of a text, what each says, and the faults of those that say nothing.

#![tactic(auto)]

mod digits;
mod faults;
mod frame;
mod kind;
mod lines;
mod payload;
mod replies;

pub use digits::{NotDigit, byte, digit, mask};
pub use faults::{Fault, FrameFault, Layer, LineFault};
pub use frame::Frame;
pub use kind::{Kind, LINE_LENGTHS, NotKind};
pub use lines::{LINE_FEED, line};
pub use payload::Payload;
pub use replies::{high_digit, low_digit, reply};
