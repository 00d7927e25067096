// What the check says of the two arrangements.
use crate::office::{BOTH_SAY_YES, ONE_SAYS_YES, Offices};
use checking::{Verdict, check, component};
use control::{Mode, Problem};
use plants::{Event, Mask};
use std::alloc::{AllocError, Global};
use theory::Move;

// The example has 8 pairs and an event with two controllers, so a check asks for 8 to the power 3 cells.
pub const CELLS: usize = 512;

// No counterexample of the example has more moves.
pub const MOVES: usize = 8;

pub fn tell(rt: &HostRuntime) -> anyhow::Result<()> {
    println!(rt; "")?;
    println!(rt;
        "Can the boxes keep exactly the legal histories if the release needs a yes from both?"
    )?;
    decide(rt, BOTH_SAY_YES)?;
    println!(rt; "")?;
    println!(rt; "And if it needs a yes from one?")?;
    decide(rt, ONE_SAYS_YES)
}

fn decide(rt: &HostRuntime, modes: Mask) -> anyhow::Result<()> {
    let heap = rt.alloc();
    let offices = Offices::new(heap, modes)?;
    let arrangement = offices.arrangement();
    let mut cells = vec![in heap; 0; CELLS]?;
    let mut trace = blank_trace(heap)?;
    match check(&arrangement, &mut cells, &mut trace) {
        Ok(Verdict::Clear) => println!(rt; "Yes: the check is clear.")?,
        Ok(Verdict::Clash(event, count)) => {
            println!(rt; "No: event {event} has a counterexample of {count} moves.")?;
            if let Some(run) = trace.as_slice().get(0..count) {
                explain(rt, arrangement.problem, event, run)?;
            }
        }
        Err(refusal) => {
            let number = refusal.number();
            println!(rt; "The check is refused with {number}.")?;
        }
    }
    Ok(())
}

pub fn blank_trace(heap: Global) -> Result<Vec<Move>, AllocError> {
    vec![in heap; Move::default(); MOVES]
}

// The histories that a run spells: one that happened, and for each controller one that it cannot tell from it.
fn explain(rt: &HostRuntime, problem: &Problem, event: Event, run: &[Move]) -> anyhow::Result<()> {
    let (here, there) = match problem.mode(event) {
        Mode::Conjunctive => ("a bad step", "legal"),
        Mode::Disjunctive => ("legal", "a bad step"),
    };
    print!(rt; "After ")?;
    history(rt, problem, run, 0)?;
    println!(rt; ", event {event} is {here}.")?;
    for site in 1..=problem.sites() {
        if problem.controls(site, event) {
            print!(rt; "Site {site} cannot tell this from ")?;
            history(rt, problem, run, site)?;
            println!(rt; ", after which event {event} is {there}.")?;
        }
    }
    Ok(())
}

fn history(rt: &HostRuntime, problem: &Problem, run: &[Move], who: u8) -> anyhow::Result<()> {
    let mut events = [0; MOVES];
    match component(problem, run, who, &mut events) {
        Ok(0) => print!(rt; "nothing")?,
        Ok(count) => {
            print!(rt; "the events")?;
            for event in events.iter().take(count) {
                print!(rt; " {event}")?;
            }
        }
        Err(_) => print!(rt; "a long history")?,
    }
    Ok(())
}
