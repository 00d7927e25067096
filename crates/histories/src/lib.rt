// Whole lists of calls on a new session.

#![tactic(auto)]

ghost use Rattle.std.specs.Prelude.{◌≡◌, length, IfOk, MatchResult, vec_len};
ghost use Rattle.control.specs.Arrangements.{meant};
ghost use Rattle.sessions.specs.Calls.{Does};
ghost use Rattle.sessions.specs.Histories.{History, Promises};
ghost use Rattle.sessions.specs.Status.{status};
ghost use Rattle.histories.specs.Lists.{exchanges};
ghost use Rattle.histories.specs.Performing.{Lent, Performed};

use control::Arrangement;
use plants::Plant;
use sessions::{Call, Reply, Session};
use std::alloc::{AllocError, Global};
use theory::Move;

// The replies to a list of calls, and the session that they leave.
#[derive(Drop)]
pub struct Replayed {
    pub replies: Vec<Reply>,
    pub session: Session,
}

// Performs a list of calls on a new session, on one arrangement. Its contract states the three promises of sessions whole, for
// every list of calls, that the calls performed with their replies are such a history, and what cells and trace then hold. Where
// there is no memory for the replies, nothing is performed.
pub fn replay<P: Plant, S: Plant>(
    heap: Global,
    arrangement: &Arrangement<'_, P, S>,
    calls: &[Call],
    cells: &mut [u64],
    trace: &mut [Move],
) -> Result<Replayed, AllocError>
    ensures performed { MatchResult result (λ x. Performed (meant arrangement.now) cells.old trace.old (exchanges calls.now x.replies.items) (status x.session) cells.new trace.new) (λ _. (cells.new ≡ cells.old) × (trace.new ≡ trace.old)) }
    ensures history { IfOk result (λ x. History (meant arrangement.now) (exchanges calls.now x.replies.items) (status x.session)) }
    ensures replies { IfOk result (λ x. vec_len x.replies ≡ length calls.now) }
    ensures promises { Promises (meant arrangement.now) }
{
    let mut replies = Vec::with_capacity(heap, calls.len())?;
    let mut session = Session::new();
    for call in calls {
        let reply = perform(&mut session, arrangement, *call, cells, trace);
        replies.push(reply).unwrap();
    }
    Ok(Replayed { replies, session })
}

// Performs one call.
// Kept: calls are values and no closures, since histories hold them.
fn perform<P: Plant, S: Plant>(
    session: &mut Session,
    arrangement: &Arrangement<'_, P, S>,
    call: Call,
    cells: &mut [u64],
    trace: &mut [Move],
) -> Reply
    ensures does { Does (meant arrangement.now) (status session.old) call result (status session.new) }
    ensures lent { Lent (meant arrangement.now) call result cells.old cells.new trace.old trace.new }
{
    match call {
        Call::Open => Reply::Checked(session.open(arrangement, cells, trace)),
        Call::Ballot(site) => Reply::Voted(session.ballot(arrangement, site)),
        Call::Settle => Reply::Allowed(session.settle(arrangement)),
        Call::Happen(event) => Reply::Moved(session.happen(arrangement, event)),
    }
}
