// Pairs by number, on examples.
use crate::Numbered;
use control::{Arrangement, PairStep, Problem};
use plants::Counter;

// The one event counts both counters up. Pair (p, q) has number 8 × p + q.
#[test]
fn steps_go_by_number(rt: HostRuntime) {
    let problem = Problem::new();
    let eight = Counter {
        up: 0,
        down: 1,
        limit: 7,
    };
    let arrangement = Arrangement::new(&problem, &eight, &eight);
    let Some(pairs) = Numbered::of(&arrangement) else {
        return assert!(rt; false, "64 pairs have numbers");
    };
    assert_eq!(rt; pairs.count(), 64);
    assert_eq!(rt; pairs.first(), 0);
    assert_eq!(rt; pairs.step(9, 0), PairStep::Legal(18));
    assert_eq!(rt;
        pairs.step(7, 0),
        PairStep::Bad,
        "the specification is at its limit"
    );
    assert_eq!(rt; pairs.step(63, 0), PairStep::NoStep);
    assert_eq!(rt; pairs.step(64, 0), PairStep::NoStep, "there is no pair 64");
    assert_eq!(rt; pairs.step(0, 255), PairStep::NoStep);
}

#[test]
fn more_than_64_pairs_have_none(rt: HostRuntime) {
    let problem = Problem::new();
    let eight = Counter {
        up: 0,
        down: 1,
        limit: 7,
    };
    let nine = Counter {
        up: 0,
        down: 1,
        limit: 8,
    };
    assert!(rt; Numbered::of(&Arrangement::new(&problem, &eight, &nine)).is_none());
    assert!(rt; Numbered::of(&Arrangement::new(&problem, &nine, &eight)).is_none());
}
