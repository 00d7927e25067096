// The replies of one line and a fixed length.
ghost use Rattle.std.specs.Prelude.{◌+◌, ◌≤◌, length, nat_le};
ghost use Rattle.frames.specs.Replies.{written};
ghost use Rattle.replies.specs.Lines.{Begins, bytes_of};
ghost use Rattle.replies.specs.Writing.{Wrote, reply};

use crate::lines::{NoRoom, has_room, put_line, put_text};
use frames::reply as fault_line;
use plants::{Event, Mask};

// The first byte of each reply but a fault.
const CLEAR: u8 = 0x80;

const CLASH: u8 = 0x81;

const PLAYED: u8 = 0x90;

// The most bytes of such a line.
const MOST_BYTES: usize = 15;

// Kept: the layer and the outcome are numbers, as in the lines, which may hold any; who has a `Layer` or a refusal gives its
// number.
#[derive(Clone, Copy, PartialEq, Eq, Debug)]
pub enum Reply {
    // the layer, the line and the number of a fault
    Fault(u8, u16, u8),
    Clear,
    // the event, and the number of moves
    Clash(Event, u16),
    // the event, the events that the round allows, and 0 or the number of a refusal
    Played(Event, Mask, u8),
}

impl Reply {
    // Writes the reply's line from a place of the output on, and answers the place after it; refuses where fewer than 15
    // bytes are left, and leaves the output as it was.
    pub fn write(self, out: &mut [u8], at: usize) -> Result<usize, NoRoom>
        ensures { Wrote (nat_le (at + 15) (length out.old)) (written (bytes_of (reply self))) out.old out.new at result }
    {
        if !has_room(out, at, MOST_BYTES) {
            return Err(NoRoom);
        }
        Ok(at + self.put(&mut out[at..]))
    }

    pub(crate) fn put(self, out: &mut [u8]) -> usize
        requires { 15 ≤ length out.old }
        ensures { Begins out.old out.new result (written (bytes_of (reply self))) }
    {
        match self {
            Reply::Fault(layer, line, number) => put_text(out, &fault_line(layer, line, number)),
            Reply::Clear => put_line(out, &[CLEAR]),
            Reply::Clash(event, moves) => {
                let [high, low] = moves.to_be_bytes();
                put_line(out, &[CLASH, event, high, low])
            }
            Reply::Played(event, allowed, outcome) => {
                let [a, b, c, d] = allowed.to_be_bytes();
                put_line(out, &[PLAYED, event, a, b, c, d, outcome])
            }
        }
    }
}
