// What problems and pairs are for, on examples.
use crate::{Arrangement, Mode, Pair, PairStep, Problem, Stop, Stopped, Unmade};
use plants::{Counter, Plant};

#[test]
fn the_first_refusal_that_fits(rt: HostRuntime) {
    let mut problem = Problem::new();
    let none = [0; 4];
    assert_eq!(rt; problem.make(33, 5, 1, none, none), Err(Unmade::EventCount));
    assert_eq!(rt; problem.make(32, 5, 1, none, none), Err(Unmade::SiteCount));
    assert_eq!(rt;
        problem.make(2, 1, 4, [4, 0, 0, 0], none),
        Err(Unmade::MaskBit)
    );
    assert_eq!(rt; problem.make(2, 1, 1, none, none), Err(Unmade::ModeBit));
    assert_eq!(rt;
        problem.events(),
        1,
        "a refusal leaves the problem as it was"
    );
    assert_eq!(rt; Unmade::EventCount.number(), 41);
    assert_eq!(rt; Unmade::ModeBit.number(), 44);
}

#[test]
fn rows_past_the_site_count_are_dropped(rt: HostRuntime) {
    let mut problem = Problem::new();
    assert_eq!(rt; problem.make(3, 2, 4, [1, 2, 9, 9], [4, 4, 9, 9]), Ok(()));
    assert_eq!(rt; problem.sees(2, 1), true);
    assert_eq!(rt; problem.sees(3, 0), false);
    assert_eq!(rt; problem.sees(0, 0), false);
    assert_eq!(rt; problem.controls(5, 255), false);
    assert_eq!(rt; problem.controllers(2), 6, "sites 1 and 2");
    assert_eq!(rt; problem.mode(2), Mode::Disjunctive);
    assert_eq!(rt; problem.mode(255), Mode::Conjunctive);
}

// A specification that does not know an event stays on it, and one that knows it and has no step forbids it.
#[test]
fn a_pair_steps_with_the_plant(rt: HostRuntime) {
    let mut problem = Problem::new();
    assert_eq!(rt; problem.make(3, 1, 0, [0; 4], [0; 4]), Ok(()));
    let plant = Counter {
        up: 0,
        down: 1,
        limit: 3,
    };
    let spec = Counter {
        up: 0,
        down: 2,
        limit: 1,
    };
    let arrangement = Arrangement::new(&problem, &plant, &spec);
    let first = arrangement.first();
    assert_eq!(rt;
        arrangement.step(first, 0),
        PairStep::Legal(Pair { plant: 1, spec: 1 })
    );
    assert_eq!(rt; arrangement.step(first, 1), PairStep::NoStep);
    assert_eq!(rt;
        arrangement.audit(&[0, 1]),
        Ok(()),
        "the specification does not know event 1"
    );
    assert_eq!(rt;
        arrangement.audit(&[0, 0]),
        Err(Stopped {
            at: 1,
            how: Stop::Bad
        })
    );
    assert_eq!(rt;
        arrangement.audit(&[0, 2]),
        Err(Stopped {
            at: 1,
            how: Stop::NoStep
        })
    );
    assert_eq!(rt;
        arrangement.audit(&[3]),
        Err(Stopped {
            at: 0,
            how: Stop::NoEvent
        })
    );
}
