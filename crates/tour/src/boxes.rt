// The boxes at work, on the arrangement that the check clears.
use crate::decision::{CELLS, blank_trace};
use crate::office::{ONE_SAYS_YES, Offices};
use checking::{Refusal as Unchecked, Verdict};
use control::Arrangement;
use histories::replay;
use plants::{Event, Mask, State, Table, contains};
use sessions::{Call, Refusal, Reply, Session};

pub fn tell(rt: &HostRuntime) -> anyhow::Result<()> {
    println!(rt; "")?;
    println!(rt; "A session, where the release needs a yes from one")?;
    attend(rt)?;
    println!(rt; "")?;
    println!(rt; "A replay of a careless list of calls")?;
    perform(
        rt,
        &[
            Call::Settle,
            Call::Open,
            Call::Happen(0),
            Call::Ballot(3),
            Call::Ballot(1),
            Call::Ballot(1),
            Call::Settle,
            Call::Ballot(2),
            Call::Settle,
            Call::Settle,
            Call::Happen(9),
            Call::Happen(1),
        ],
    )
}

// Opens a session and lets the boxes vote: at first they hold the release, and after a save they let it happen.
fn attend(rt: &HostRuntime) -> anyhow::Result<()> {
    let heap = rt.alloc();
    let offices = Offices::new(heap, ONE_SAYS_YES)?;
    let arrangement = offices.arrangement();
    let mut cells = vec![in heap; 0; CELLS]?;
    let mut trace = blank_trace(heap)?;
    let mut session = Session::new();
    ask(rt, Call::Open)?;
    checked(rt, session.open(&arrangement, &mut cells, &mut trace))?;
    settle_round(rt, &arrangement, &mut session)?;
    let_happen(rt, &arrangement, &mut session, 2)?;
    let_happen(rt, &arrangement, &mut session, 0)?;
    settle_round(rt, &arrangement, &mut session)?;
    let_happen(rt, &arrangement, &mut session, 2)
}

// Casts both ballots and settles the round.
fn settle_round(
    rt: &HostRuntime,
    arrangement: &Arrangement<'_, Table, Table>,
    session: &mut Session,
) -> anyhow::Result<()> {
    for site in 1..=2u8 {
        ask(rt, Call::Ballot(site))?;
        answer(rt, Reply::Voted(session.ballot(arrangement, site)))?;
    }
    ask(rt, Call::Settle)?;
    answer(rt, Reply::Allowed(session.settle(arrangement)))
}

fn let_happen(
    rt: &HostRuntime,
    arrangement: &Arrangement<'_, Table, Table>,
    session: &mut Session,
    event: Event,
) -> anyhow::Result<()> {
    ask(rt, Call::Happen(event))?;
    answer(rt, Reply::Moved(session.happen(arrangement, event)))
}

// Performs a list of calls on a new session and tells each with its reply.
fn perform(rt: &HostRuntime, calls: &[Call]) -> anyhow::Result<()> {
    let heap = rt.alloc();
    let offices = Offices::new(heap, ONE_SAYS_YES)?;
    let mut cells = vec![in heap; 0; CELLS]?;
    let mut trace = blank_trace(heap)?;
    let done = replay(heap, &offices.arrangement(), calls, &mut cells, &mut trace)?;
    for (call, reply) in calls.iter().zip(done.replies.as_slice()) {
        ask(rt, *call)?;
        answer(rt, *reply)?;
    }
    Ok(())
}

fn ask(rt: &HostRuntime, call: Call) -> anyhow::Result<()> {
    match call {
        Call::Open => print!(rt; "The session is opened: ")?,
        Call::Ballot(site) => print!(rt; "Site {site} is asked for its ballot: ")?,
        Call::Settle => print!(rt; "The round is settled: ")?,
        Call::Happen(event) => print!(rt; "Event {event} is to happen: ")?,
    }
    Ok(())
}

fn answer(rt: &HostRuntime, reply: Reply) -> anyhow::Result<()> {
    match reply {
        Reply::Checked(outcome) => checked(rt, outcome),
        Reply::Voted(outcome) => masked(rt, "it says yes to", outcome),
        Reply::Allowed(outcome) => masked(rt, "allowed are", outcome),
        Reply::Moved(outcome) => moved(rt, outcome),
    }
}

fn checked(rt: &HostRuntime, outcome: Result<Verdict, Unchecked>) -> anyhow::Result<()> {
    match outcome {
        Ok(Verdict::Clear) => println!(rt; "clear.")?,
        Ok(Verdict::Clash(event, count)) => println!(rt;
            "a clash at event {event} in {count} moves."
        )?,
        Err(refusal) => {
            let number = refusal.number();
            println!(rt; "refused with {number}.")?;
        }
    }
    Ok(())
}

fn masked(rt: &HostRuntime, words: &str, outcome: Result<Mask, Refusal>) -> anyhow::Result<()> {
    match outcome {
        Ok(mask) => {
            print!(rt; "{words}")?;
            for event in 0..3u8 {
                if contains(mask, event) {
                    print!(rt; " {event}")?;
                }
            }
            if mask == 0 {
                print!(rt; " none")?;
            }
            println!(rt; ".")?;
        }
        Err(refusal) => refused(rt, refusal)?,
    }
    Ok(())
}

fn moved(rt: &HostRuntime, outcome: Result<State, Refusal>) -> anyhow::Result<()> {
    match outcome {
        Ok(state) => println!(rt; "accepted, and the plant is in state {state}.")?,
        Err(refusal) => refused(rt, refusal)?,
    }
    Ok(())
}

fn refused(rt: &HostRuntime, refusal: Refusal) -> anyhow::Result<()> {
    let number = refusal.number();
    println!(rt; "refused with {number}.")?;
    Ok(())
}
