// Playing an event: the missing ballots are cast, the round is settled if need be, and the event happens or is refused.

#![tactic(auto)]

ghost use Rattle.std.specs.Prelude.{◌≡◌};
ghost use Rattle.control.specs.Arrangements.{meant};
ghost use Rattle.sessions.specs.Status.{status};
ghost use Rattle.replies.specs.Plays.{after_play, cast_to, outcome_number, play_reply, ready};
ghost use Rattle.replies.specs.Writing.{reply};

use control::Arrangement;
use plants::{Event, Plant, State};
use replies::Reply;
use sessions::{Refusal, Session};

// Plays an event on a session, and answers the reply to it.
// Kept: a session and an arrangement make no struct, since a session keeps none and is brought one at every call.
#[tactic(auto, unfolding(replies::specs::Plays::after_play))]
pub fn play<P: Plant, S: Plant>(
    session: &mut Session,
    arrangement: &Arrangement<'_, P, S>,
    event: Event,
) -> Reply
    ensures value { reply result ≡ play_reply (meant arrangement.now) (status session.old) event }
    ensures after { status session.new ≡ after_play (meant arrangement.now) (status session.old) event }
{
    prepare(session, arrangement);
    let allowed = session.allowed();
    let outcome = session.happen(arrangement, event);
    Reply::Played(event, allowed, number(outcome))
}

// Casts the missing ballots, and settles the round if need be.
#[tactic(auto, unfolding(replies::specs::Plays::ready))]
fn prepare<P: Plant, S: Plant>(session: &mut Session, arrangement: &Arrangement<'_, P, S>)
    ensures { status session.new ≡ ready (meant arrangement.now) (status session.old) }
{
    cast_missing(session, arrangement);
    let _ = session.settle(arrangement);
}

// Asks every site for its ballot. One that has voted is refused, and keeps its vote.
#[tactic(auto, unfolding(replies::specs::Plays::cast_to))]
fn cast_missing<P: Plant, S: Plant>(session: &mut Session, arrangement: &Arrangement<'_, P, S>)
    ensures { status session.new ≡ cast_to (meant arrangement.now) (status session.old) (meant arrangement.now).setup.sites }
{
    for site in 1..=arrangement.problem.sites() {
        let _ = session.ballot(arrangement, site);
    }
}

// 0 for an event that happened, or the number of the refusal.
fn number(outcome: Result<State, Refusal>) -> u8
    ensures { result ≡ outcome_number outcome }
{
    outcome.err().map_or(0, Refusal::number)
}
