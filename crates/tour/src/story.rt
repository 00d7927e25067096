// What the tour tells.
use crate::office::{BOTH_SAY_YES, Offices, RELEASE};
use control::{Arrangement, Mode, PairStep, Problem, Stop, Stopped};
use plants::{Event, Plant, Table};

pub fn tell(rt: &HostRuntime) -> anyhow::Result<()> {
    let offices = Offices::new(rt.alloc(), BOTH_SAY_YES)?;
    let arrangement = offices.arrangement();
    set_up(rt, &arrangement)?;
    follow(
        rt,
        &arrangement,
        "office 1 saves, then the set is released",
        &[0, 2],
    )?;
    follow(
        rt,
        &arrangement,
        "the set is released and nobody saved",
        &[2],
    )?;
    follow(
        rt,
        &arrangement,
        "office 2 saves, and office 1 saves too",
        &[1, 0],
    )?;
    follow(
        rt,
        &arrangement,
        "a record with a number that is no event",
        &[1, 7],
    )
}

fn set_up(rt: &HostRuntime, arrangement: &Arrangement<'_, Table, Table>) -> anyhow::Result<()> {
    println!(rt; "A drawing set and two offices")?;
    println!(rt;
        "Event 0 is a save by office 1, event 1 a save by office 2, event 2 the release."
    )?;
    let problem = arrangement.problem;
    for site in 1..=problem.sites() {
        for event in 0..problem.events() {
            if problem.sees(site, event) {
                println!(rt; "Site {site} sees event {event}.")?;
            }
            if problem.controls(site, event) {
                println!(rt; "Site {site} controls event {event}.")?;
            }
        }
    }
    match problem.mode(RELEASE) {
        Mode::Conjunctive => println!(rt;
            "Event 2 is conjunctive: it needs a yes from every controller."
        )?,
        Mode::Disjunctive => println!(rt;
            "Event 2 is disjunctive: it needs a yes from one controller."
        )?,
    }
    let states = arrangement.plant.count();
    let kept = arrangement.spec.count();
    println!(rt; "The plant has {states} states, its specification {kept}.")?;
    Ok(())
}

// Follows one recorded history event by event, and has it audited.
fn follow(
    rt: &HostRuntime,
    arrangement: &Arrangement<'_, Table, Table>,
    title: &str,
    events: &[Event],
) -> anyhow::Result<()> {
    println!(rt; "")?;
    println!(rt; "History: {title}")?;
    let mut pair = arrangement.first();
    for event in events {
        match arrangement.step(pair, *event) {
            PairStep::Legal(next) => {
                moved(rt, arrangement.problem, *event, pair.plant, next.plant)?;
                println!(rt; "  That is legal.")?;
                pair = next;
            }
            PairStep::Bad => {
                let next = arrangement
                    .plant
                    .step(pair.plant, *event)
                    .unwrap_or(pair.plant);
                moved(rt, arrangement.problem, *event, pair.plant, next)?;
                println!(rt; "  That is a bad step: the specification forbids it here.")?;
                break;
            }
            PairStep::NoStep => {
                let at = pair.plant;
                println!(rt; "Event {event}: the plant has no such step in state {at}.")?;
                break;
            }
        }
    }
    report(rt, arrangement.audit(events))
}

// What the plant did on an event, and who saw it.
fn moved(
    rt: &HostRuntime,
    problem: &Problem,
    event: Event,
    from: u8,
    to: u8,
) -> anyhow::Result<()> {
    println!(rt; "Event {event}: the plant goes from state {from} to state {to}.")?;
    for site in (1..=problem.sites()).filter(|site| problem.sees(*site, event)) {
        println!(rt; "  Site {site} saw it.")?;
    }
    if !(1..=problem.sites()).any(|site| problem.sees(site, event)) {
        println!(rt; "  No site saw it.")?;
    }
    Ok(())
}

fn report(rt: &HostRuntime, audited: Result<(), Stopped>) -> anyhow::Result<()> {
    let Err(Stopped { at, how }) = audited else {
        println!(rt; "Audit: the whole history is legal.")?;
        return Ok(());
    };
    let why = match how {
        Stop::NoEvent => "the next number is no event",
        Stop::NoStep => "the plant cannot do the next",
        Stop::Bad => "the next is a bad step",
    };
    println!(rt; "Audit: legal for {at} events; {why}.")?;
    Ok(())
}
