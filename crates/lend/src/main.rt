// Lends the cells and the trace of a check itself. The worked example has 4 × 2 pairs, and two sites control its event 2, so a
// check asks for 8 to the power 3 cells.

#![tactic(auto)]

use checking::{Refusal, Verdict, check};
use control::{Arrangement, Problem};
use plants::Table;
use std::alloc::{AllocError, Global};
use std::io;
use theory::Move;

// Kept: the tour has these numbers too, and each program is read by itself.
// Site 1 sees event 0, site 2 sees event 1, and both control event 2.
fn problem() -> Problem {
    let mut problem = Problem::new();
    let _ = problem.make(3, 2, 0, [1, 2, 0, 0], [4, 4, 0, 0]);
    problem
}

// Each step is a state, an event and the next state.
fn table(heap: Global, count: u8, steps: &[[u8; 3]]) -> Result<Table, AllocError> {
    let mut table = Table::empty(heap, count, 0, 7)?;
    for [from, event, to] in steps {
        let _ = table.put(*from, *event, *to);
    }
    Ok(table)
}

// A check of the worked example with so many cells and moves.
fn ask(heap: Global, cells: usize, moves: usize) -> Result<Result<Verdict, Refusal>, AllocError> {
    let plant = table(
        heap,
        4,
        &[[0, 0, 1], [0, 1, 2], [0, 2, 3], [1, 2, 3], [2, 2, 3]],
    )?;
    let spec = table(heap, 2, &[[0, 0, 1], [0, 1, 1], [1, 2, 1]])?;
    let mut cells = vec![in heap; 0; cells]?;
    let mut trace = vec![in heap; Move::default(); moves]?;
    let problem = problem();
    let arrangement = Arrangement::new(&problem, &plant, &spec);
    Ok(check(&arrangement, &mut cells, &mut trace))
}

fn tell(rt: &HostRuntime, cells: usize, moves: usize) -> io::Result<()> {
    print!(rt; "With {cells} cells and a trace of {moves}: ")?;
    match ask(rt.alloc(), cells, moves)? {
        Ok(Verdict::Clear) => println!(rt; "clear."),
        Ok(Verdict::Clash(event, count)) => {
            println!(rt; "clash at event {event} in {count} moves.")
        }
        Err(refusal) => {
            let number = refusal.number();
            println!(rt; "refused with {number}.")
        }
    }
}

fn main(rt: HostRuntime) -> io::Result<()> {
    tell(&rt, 511, 2)?;
    tell(&rt, 512, 2)?;
    tell(&rt, 512, 1)
}
