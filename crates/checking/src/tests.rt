// The worked example: site 1 sees event 0, site 2 sees event 1, and both control event 2.
use crate::{Refusal, TooShort, Verdict, check, component};
use control::{Arrangement, Problem};
use plants::{Counter, Mask, Table};
use std::alloc::Global;
use std::test::Fail;
use theory::Move;

const DISJUNCTIVE: Mask = 4;

fn worked(modes: Mask, controlled: Mask) -> Result<Problem, Fail> {
    let mut problem = Problem::new();
    problem.make(3, 2, modes, [1, 2, 0, 0], [controlled, controlled, 0, 0])?;
    Ok(problem)
}

// Each step is a state, an event and the next state.
fn table(heap: Global, count: u8, steps: &[[u8; 3]]) -> Result<Table, Fail> {
    let mut table = Table::empty(heap, count, 0, 7)?;
    for step in steps {
        table.put(step[0], step[1], step[2])?;
    }
    Ok(table)
}

fn plant(heap: Global) -> Result<Table, Fail> {
    table(
        heap,
        4,
        &[[0, 0, 1], [0, 1, 2], [0, 2, 3], [1, 2, 3], [2, 2, 3]],
    )
}

// Event 2 is legal after an event 0 or 1, and bad before.
fn after(heap: Global) -> Result<Table, Fail> {
    table(heap, 2, &[[0, 0, 1], [0, 1, 1], [1, 2, 1]])
}

// Event 2 is legal before an event 0 or 1, and bad after.
fn before(heap: Global) -> Result<Table, Fail> {
    table(heap, 2, &[[0, 2, 0], [0, 0, 1], [0, 1, 1]])
}

fn verdict(heap: Global, problem: &Problem, spec: &Table) -> Result<Verdict, Fail> {
    let plant = plant(heap)?;
    let mut cells = vec![in heap; 7; 512]?;
    let mut trace = [Move::default(); 3];
    let arrangement = Arrangement::new(problem, &plant, spec);
    Ok(check(&arrangement, &mut cells, &mut trace)?)
}

#[test]
fn the_four_verdicts(rt: HostRuntime) -> Result<(), Fail> {
    let conjunctive = worked(0, 4)?;
    let disjunctive = worked(DISJUNCTIVE, 4)?;
    let after = after(rt.alloc())?;
    let before = before(rt.alloc())?;
    assert_eq!(rt;
        verdict(rt.alloc(), &conjunctive, &after)?,
        Verdict::Clash(2, 2)
    );
    assert_eq!(rt; verdict(rt.alloc(), &disjunctive, &after)?, Verdict::Clear);
    assert_eq!(rt; verdict(rt.alloc(), &conjunctive, &before)?, Verdict::Clear);
    assert_eq!(rt;
        verdict(rt.alloc(), &disjunctive, &before)?,
        Verdict::Clash(2, 2)
    );
    Ok(())
}

#[test]
fn no_controller_and_no_moves(rt: HostRuntime) -> Result<(), Fail> {
    let after = after(rt.alloc())?;
    assert_eq!(rt;
        verdict(rt.alloc(), &worked(0, 0)?, &after)?,
        Verdict::Clash(2, 0)
    );
    Ok(())
}

// Site 1 may have met event 1 and site 2 event 0, while neither has happened.
#[test]
fn the_strings_of_a_run(rt: HostRuntime) -> Result<(), Fail> {
    let problem = worked(0, 4)?;
    let run = [Move { event: 0, mover: 2 }, Move { event: 1, mover: 1 }];
    let mut out = [9; 2];
    assert_eq!(rt; component(&problem, &run, 0, &mut out), Ok(0));
    assert_eq!(rt; component(&problem, &run, 1, &mut out), Ok(1));
    assert_eq!(rt; out, [1, 9]);
    assert_eq!(rt; component(&problem, &run, 2, &mut out), Ok(1));
    assert_eq!(rt; out, [0, 9]);
    assert_eq!(rt; component(&problem, &run, 2, &mut []), Err(TooShort));
    Ok(())
}

#[test]
fn the_first_refusal_that_fits(rt: HostRuntime) {
    let problem = Problem::new();
    let void = Counter {
        up: 0,
        down: 0,
        limit: 1,
    };
    let eight = Counter {
        up: 0,
        down: 1,
        limit: 7,
    };
    let nine = Counter {
        up: 0,
        down: 1,
        limit: 8,
    };
    assert_eq!(rt;
        check(&Arrangement::new(&problem, &void, &void), &mut [], &mut []),
        Err(Refusal::VoidPlant)
    );
    assert_eq!(rt;
        check(&Arrangement::new(&problem, &eight, &void), &mut [], &mut []),
        Err(Refusal::VoidSpec)
    );
    assert_eq!(rt;
        check(&Arrangement::new(&problem, &eight, &nine), &mut [], &mut []),
        Err(Refusal::TooManyPairs)
    );
    assert_eq!(rt;
        check(
            &Arrangement::new(&problem, &eight, &eight),
            &mut [0; 63],
            &mut []
        ),
        Err(Refusal::TooFewCells)
    );
    assert_eq!(rt; Refusal::VoidPlant.number(), 11);
    assert_eq!(rt; Refusal::ShortTrace.number(), 15);
}
