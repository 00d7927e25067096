// The replies to a clash: the event, and the strings of the run that shows it.
ghost use Rattle.std.specs.Prelude.{◌+◌, ◌*◌, ◌≤◌, ◌&&◌, length, nat_le};
ghost use Rattle.control.specs.Problems.{setup};
ghost use Rattle.checking.specs.Traces.{string_of};
ghost use Rattle.frames.specs.Replies.{written};
ghost use Rattle.replies.specs.Lines.{Begins, bytes_of, clash_replies, digits, string, string_if, strings_to, text_of};
ghost use Rattle.replies.specs.Writing.{Wrote};

use crate::lines::{NoRoom, has_room, put_byte, put_bytes, put_feed};
use crate::reply::Reply;
use checking::takes_part;
use control::Problem;
use plants::Event;
use theory::Move;

// The first byte of the reply.
const STRING: u8 = 0x82;

// How many moves a run may have.
pub const MOST_MOVES: usize = 256;

// The most bytes of the replies to a clash: 9 for the event and the moves, and for each of five components a line of 2 bytes
// and the events of the run.
const MOST_BYTES: usize = 2_594;

// Writes the replies to a clash from a place of the output on, and answers the place after them: the event with the number of
// moves, and the string of component 0 and of each controller, rising. Refuses a run of more than 256 moves, or where fewer
// than 2,594 bytes are left, and leaves the output as it was.
pub fn write_clash(
    problem: &Problem,
    event: Event,
    run: &[Move],
    out: &mut [u8],
    at: usize,
) -> Result<usize, NoRoom>
    ensures { Wrote (nat_le (length run.now) 256 && nat_le (at + 2594) (length out.old)) (text_of (clash_replies (setup problem.now) event run.now)) out.old out.new at result }
{
    if run.len() > MOST_MOVES || !has_room(out, at, MOST_BYTES) {
        return Err(NoRoom);
    }
    Ok(at + put_clash(problem, event, run, &mut out[at..]))
}

// The event with the number of moves, and the strings.
fn put_clash(problem: &Problem, event: Event, run: &[Move], out: &mut [u8]) -> usize
    requires few { length run.now ≤ 256 }
    requires room { 2594 ≤ length out.old }
    ensures { Begins out.old out.new result (text_of (clash_replies (setup problem.now) event run.now)) }
{
    let mut count = Reply::Clash(event, run.len() as u16).put(out);
    count += put_string(problem, 0, run, &mut out[count..]);
    count += put_controllers(problem, event, run, &mut out[count..]);
    count
}

// The strings of the controllers.
// Kept: each of these asks anew that the run is short, since a slice cannot say it.
fn put_controllers(problem: &Problem, event: Event, run: &[Move], out: &mut [u8]) -> usize
    requires few { length run.now ≤ 256 }
    requires room { 2068 ≤ length out.old }
    ensures { Begins out.old out.new result (text_of (strings_to (setup problem.now) event run.now (setup problem.now).sites)) }
{
    let mut count = 0;
    for site in 1..=problem.sites() {
        count += put_controller(problem, event, site, run, &mut out[count..]);
    }
    count
}

// The string of a site that is a controller; nothing for another.
fn put_controller(problem: &Problem, event: Event, site: u8, run: &[Move], out: &mut [u8]) -> usize
    requires few { length run.now ≤ 256 }
    requires room { 517 ≤ length out.old }
    ensures line { Begins out.old out.new result (text_of (string_if (setup problem.now) event run.now site)) }
    ensures bound { result ≤ 517 }
{
    if problem.controls(site, event) {
        put_string(problem, site, run, out)
    } else {
        0
    }
}

// The line of a component's string.
fn put_string(problem: &Problem, number: u8, run: &[Move], out: &mut [u8]) -> usize
    requires few { length run.now ≤ 256 }
    requires room { 517 ≤ length out.old }
    ensures line { Begins out.old out.new result (written (bytes_of (string number (string_of (setup problem.now) number run.now)))) }
    ensures bound { result ≤ 517 }
{
    let mut count = put_bytes(out, &[STRING, number]);
    count += put_events(problem, number, run, &mut out[count..]);
    count + put_feed(&mut out[count..])
}

// The digits of its events, in one walk over the run.
fn put_events(problem: &Problem, number: u8, run: &[Move], out: &mut [u8]) -> usize
    requires { 2 * length run.now ≤ length out.old }
    ensures events { Begins out.old out.new result (digits (string_of (setup problem.now) number run.now)) }
    ensures bound { result ≤ 2 * length run.now }
{
    let mut count = 0;
    for step in run {
        if takes_part(problem, number, *step) {
            count += put_byte(&mut out[count..], step.event);
        }
    }
    count
}
