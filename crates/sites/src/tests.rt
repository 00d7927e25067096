// Estimates and votes on examples. Two sites and three events: site 1 sees event 0, site 2 sees event 1, and both control
// event 2, which is disjunctive, bad at first and legal after either of the others. Pair (p, q) has number 2 × p + q.
use crate::{first_estimate, hidden_reach, see, vote};
use control::{Arrangement, Problem};
use plants::{Counter, Mask, Table};
use std::alloc::Global;
use std::test::Fail;

fn two_sites(modes: Mask) -> Result<Problem, Fail> {
    let mut problem = Problem::new();
    problem.make(3, 2, modes, [1, 2, 0, 0], [4, 4, 0, 0])?;
    Ok(problem)
}

fn four_states(heap: Global) -> Result<Table, Fail> {
    let mut plant = Table::empty(heap, 4, 0, 7)?;
    plant.put(0, 0, 1)?;
    plant.put(0, 1, 2)?;
    plant.put(0, 2, 3)?;
    plant.put(1, 2, 3)?;
    plant.put(2, 2, 3)?;
    Ok(plant)
}

fn one_first(heap: Global) -> Result<Table, Fail> {
    let mut spec = Table::empty(heap, 2, 0, 7)?;
    spec.put(0, 0, 1)?;
    spec.put(0, 1, 1)?;
    spec.put(1, 2, 1)?;
    Ok(spec)
}

#[test]
fn an_estimate_follows_what_the_site_sees(rt: HostRuntime) -> Result<(), Fail> {
    let problem = two_sites(4)?;
    let plant = four_states(rt.alloc())?;
    let spec = one_first(rt.alloc())?;
    let arrangement = Arrangement::new(&problem, &plant, &spec);
    assert_eq!(rt;
        first_estimate(&arrangement, 1),
        Some(161),
        "pairs 0, 5 and 7"
    );
    assert_eq!(rt;
        first_estimate(&arrangement, 2),
        Some(137),
        "pairs 0, 3 and 7"
    );
    assert_eq!(rt; see(&arrangement, 1, 161, 0), Some(136), "pairs 3 and 7");
    assert_eq!(rt; see(&arrangement, 1, 161, 255), Some(0), "no event");
    assert_eq!(rt;
        hidden_reach(&arrangement, 1, 258),
        Some(130),
        "there is no pair 8"
    );
    assert_eq!(rt;
        first_estimate(&arrangement, 0),
        Some(169),
        "site 0 sees no event"
    );
    Ok(())
}

#[test]
fn a_vote_is_by_the_kind_of_the_event(rt: HostRuntime) -> Result<(), Fail> {
    let problem = two_sites(4)?;
    let plant = four_states(rt.alloc())?;
    let spec = one_first(rt.alloc())?;
    let arrangement = Arrangement::new(&problem, &plant, &spec);
    assert_eq!(rt; vote(&arrangement, 1, 161), Some(0), "bad at pair 0");
    assert_eq!(rt; vote(&arrangement, 1, 136), Some(4), "bad at no pair");
    assert_eq!(rt; vote(&arrangement, 1, 0), Some(0), "an empty estimate");
    assert_eq!(rt;
        vote(&arrangement, 5, 136),
        Some(0),
        "site 5 controls no event"
    );
    let conjunctive = two_sites(0)?;
    let arrangement = Arrangement::new(&conjunctive, &plant, &spec);
    assert_eq!(rt; vote(&arrangement, 1, 161), Some(4), "legal at pair 5");
    Ok(())
}

// One event, which no site sees, counts both plants up.
#[test]
fn a_set_has_room_for_64_pairs(rt: HostRuntime) {
    let problem = Problem::new();
    let eight = Counter {
        up: 0,
        down: 1,
        limit: 7,
    };
    let nine = Counter {
        up: 0,
        down: 1,
        limit: 8,
    };
    let arrangement = Arrangement::new(&problem, &eight, &eight);
    assert_eq!(rt;
        first_estimate(&arrangement, 1),
        Some(0x8040_2010_0804_0201)
    );
    assert_eq!(rt;
        first_estimate(&Arrangement::new(&problem, &eight, &nine), 1),
        None,
        "72 pairs"
    );
    assert_eq!(rt;
        vote(&Arrangement::new(&problem, &nine, &eight), 1, 0),
        None
    );
}
