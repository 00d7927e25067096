// A full search without a clash. The plant is two counters to 7 side by side, with four events, and so has 8 × 8 = 64 states.
// The specification has one state and knows no event, so every step is legal. Two sites control every event and see
// none: each of the three strings goes its own way, and all 64 × 64 × 64 = 262144 tuples are met for each event. At each of
// them 5 movers try 4 events: 20 moves, 5242880 for one event and 20971520 for the four.

#![tactic(auto)]

use checking::{Verdict, cells_for, check};
use control::{Arrangement, Problem};
use plants::{Counter, Product};
use search::Graph;
use std::io;
use tuples::Tuples;

// A cell at or above it has a parent, so its tuple was met.
const MET: u64 = 0x1_0000_0000;

fn problem() -> Problem {
    let mut problem = Problem::new();
    let _ = problem.make(4, 2, 0, [0; 4], [15, 15, 0, 0]);
    problem
}

fn plant() -> Product<Counter, Counter> {
    Product {
        left: Counter {
            up: 0,
            down: 1,
            limit: 7,
        },
        right: Counter {
            up: 2,
            down: 3,
            limit: 7,
        },
    }
}

fn met(cells: &[u64]) -> usize {
    cells.iter().filter(|cell| **cell >= MET).count()
}

fn main(rt: HostRuntime) -> io::Result<()> {
    let problem = problem();
    let plant = plant();
    let free = Counter {
        up: 0,
        down: 0,
        limit: 0,
    };
    let arrangement = Arrangement::new(&problem, &plant, &free);
    let mut cells = vec![in rt.alloc(); 0; cells_for(&problem, 64)]?;
    match check(&arrangement, &mut cells, &mut []) {
        Ok(Verdict::Clear) => println!(rt; "The check is clear.")?,
        Ok(Verdict::Clash(event, _)) => println!(rt; "There is a clash at event {event}.")?,
        Err(_) => println!(rt; "The check is refused.")?,
    }
    let count = met(&cells);
    println!(rt; "For the last event {count} tuples were met.")?;
    if let Some(tuples) = Tuples::new(&arrangement) {
        let moves = tuples.moves();
        println!(rt; "At each of them {moves} moves were tried.")?;
    }
    Ok(())
}
