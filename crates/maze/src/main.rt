// Searches a grid of 160000 nodes, open and with walls, and prints how far the goal is and how much the search did.
//
// The numbers in `stdout` follow from the grid. The goal is the farthest node and leaves the queue last, so that the search opens
// each node that can be reached, and tries the four moves from each but the goal. The walk back opens a node for each move of the
// run, and tries the moves up to the one that was made: two for a move right, three for one down, four for one left.
//
// Open, the run of 798 moves is 399 right and 399 down, since right comes first: 160000 + 798 nodes opened, and
// 159999 * 4 + 399 * 2 + 399 * 3 moves tried.
// With walls, 200 rows of 400 nodes and 200 gaps are left. The run goes 399 down, 100 rows of 399 to the right and 99 to the
// left, which is 79800 moves: 80200 + 79800 nodes opened, and 80199 * 4 + 399 * 3 + 39900 * 2 + 39501 * 4 moves tried.

#![tactic(auto)]

mod grid;

use grid::Grid;
use search::search;
use std::cell::Cell;
use std::io;

// Searches one grid, and prints what came of it.
fn run(rt: HostRuntime, walled: bool, cells: &mut [u64]) -> io::Result<()> {
    let grid = Grid {
        walled,
        opened: Cell::new(0),
        tried: Cell::new(0),
    };
    let answer = search(&grid, cells);
    let opened = grid.opened.get();
    let tried = grid.tried.get();
    match answer {
        Ok(Some(moves)) => println!(rt;
            "{moves} moves to the goal, {opened} nodes opened, {tried} moves tried"
        ),
        Ok(None) => println!(rt; "no goal, {opened} nodes opened, {tried} moves tried"),
        Err(_) => println!(rt; "too few cells"),
    }
}

fn main(rt: HostRuntime) -> io::Result<()> {
    let mut cells = vec![in rt.alloc(); 7u64; 160_000]?;
    run(rt, false, &mut cells)?;
    run(rt, true, &mut cells)
}
