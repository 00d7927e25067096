// The replies to what the check answers.
ghost use Rattle.std.specs.Prelude.{◌≡◌, ◌+◌, ◌*◌, ◌≤◌, ◌∷◌, length, if◌then◌else◌};
ghost use Rattle.control.specs.Arrangements.{meant};
ghost use Rattle.control.specs.Problems.{setup};
ghost use Rattle.sessions.specs.Calls.{is_clear, opened};
ghost use Rattle.sessions.specs.Status.{status};
ghost use Rattle.frames.specs.Replies.{written};
ghost use Rattle.replies.specs.Decks.{most_moves};
ghost use Rattle.replies.specs.Lines.{Begins, bytes_of, clash_replies, clear, text_of};
ghost use Rattle.replies.specs.Plays.{play_replies};
ghost use Rattle.replies.specs.Writing.{reply as said};
ghost use Rattle.run.specs.Runs.{Asked, Concluded, least_output};

use checking::{Refusal as Unchecked, Verdict};
use control::{Arrangement, Problem};
use plants::{Event, Plant};
use plays::play;
use replies::{MOST_MOVES, Reply, write_clash};
use sessions::Session;
use theory::Move;

// Opens a session. A clash is shown by the strings of its run; after a clear check every event to play is answered.
pub(crate) fn conclude<P: Plant, S: Plant>(
    arrangement: &Arrangement<'_, P, S>,
    plays: &[Event],
    cells: &mut [u64],
    trace: &mut [Move],
    out: &mut [u8],
) -> Result<usize, Unchecked>
    requires long { least_output ≤ length out.old }
    requires room { 15 + 15 * length plays.now ≤ length out.old }
    ensures { Concluded (meant arrangement.now) cells.old cells.new trace.old trace.new plays.now out.old out.new result }
{
    let mut session = Session::new();
    match open(&mut session, arrangement, cells, trace)? {
        Verdict::Clear => Ok(answer_plays(&mut session, arrangement, plays, out)),
        Verdict::Clash(event, moves) => {
            Ok(show_clash(arrangement.problem, event, &trace[..moves], out))
        }
    }
}

// Opens a session with at most 256 records of the trace.
fn open<P: Plant, S: Plant>(
    session: &mut Session,
    arrangement: &Arrangement<'_, P, S>,
    cells: &mut [u64],
    trace: &mut [Move],
) -> Result<Verdict, Unchecked>
    ensures asked { Asked (meant arrangement.now) cells.old cells.new trace.old trace.new result }
    ensures after { status session.new ≡ (if is_clear result then opened (meant arrangement.now) else status session.old) }
{
    let used = trace.len().min(MOST_MOVES);
    session.open(arrangement, cells, &mut trace[..used])
}

// Clear, and the answer to each play.
fn answer_plays<P: Plant, S: Plant>(
    session: &mut Session,
    arrangement: &Arrangement<'_, P, S>,
    plays: &[Event],
    out: &mut [u8],
) -> usize
    requires { 15 + 15 * length plays.now ≤ length out.old }
    ensures { Begins out.old out.new result (text_of (clear ∷ play_replies (meant arrangement.now) (status session.old) plays.now)) }
{
    let mut count = put(Reply::Clear, out);
    for event in plays {
        let reply = play(session, arrangement, *event);
        count += put(reply, &mut out[count..]);
    }
    count
}

// The strings of a run.
fn show_clash(problem: &Problem, event: Event, run: &[Move], out: &mut [u8]) -> usize
    requires few { length run.now ≤ most_moves }
    requires long { least_output ≤ length out.old }
    ensures { Begins out.old out.new result (text_of (clash_replies (setup problem.now) event run.now)) }
{
    write_clash(problem, event, run, out, 0).unwrap()
}

// One reply at the front of the output.
pub(crate) fn put(reply: Reply, out: &mut [u8]) -> usize
    requires { 15 ≤ length out.old }
    ensures { Begins out.old out.new result (written (bytes_of (said reply))) }
{
    reply.write(out, 0).unwrap()
}
