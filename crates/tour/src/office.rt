// The worked example. Events 0 and 1 are the saves of the offices 1 and 2, and event 2 is the release of the set. Each
// office sees its own saves, and both control the release.
use anyhow::anyhow;
use control::{Arrangement, Problem};
use plants::{Event, Mask, State, Table};
use std::alloc::Global;

pub const RELEASE: Event = 2;

// The modes that make the release conjunctive and disjunctive.
pub const BOTH_SAY_YES: Mask = 0;

pub const ONE_SAYS_YES: Mask = 4;

// What the offices arrange.
#[derive(Drop)]
pub struct Offices {
    problem: Problem,
    plant: Table,
    spec: Table,
}

impl Offices {
    // The set is saved by one office or by none before it is released, and only one that some office saved may be released.
    pub fn new(heap: Global, modes: Mask) -> anyhow::Result<Offices> {
        let mut problem = Problem::new();
        if problem
            .make(3, 2, modes, [1, 2, 0, 0], [4, 4, 0, 0])
            .is_err()
        {
            return Err(anyhow!("the problem cannot be made"));
        }
        Ok(Offices {
            problem,
            plant: table(
                heap,
                4,
                &[(0, 0, 1), (0, 1, 2), (0, 2, 3), (1, 2, 3), (2, 2, 3)],
            )?,
            spec: table(heap, 2, &[(0, 0, 1), (0, 1, 1), (1, 2, 1)])?,
        })
    }

    pub fn arrangement(&self) -> Arrangement<'_, Table, Table> {
        Arrangement::new(&self.problem, &self.plant, &self.spec)
    }
}

// A table that knows the three events, with the first state 0 and these steps, each a state, an event and the next state.
fn table(heap: Global, count: State, steps: &[(State, Event, State)]) -> anyhow::Result<Table> {
    let mut table = Table::empty(heap, count, 0, 7)?;
    for (from, event, to) in steps {
        if table.put(*from, *event, *to).is_err() {
            return Err(anyhow!("a step does not fit its table"));
        }
    }
    Ok(table)
}
