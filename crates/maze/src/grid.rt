// A grid of 400 rows and columns, open or with walls. Every odd row is then a wall with one gap, in turn at its left and at its
// right end, so that the only way from the upper left corner to the lower right one goes along every even row but the first.
ghost use Rattle.std.specs.Prelude.{◌≡◌, ◌+◌, ◌*◌, ◌<◌};
ghost use Rattle.maze.specs.Grids.{gap_of, node_at, moved, grid, grid_sound};

use search::Graph;
use std::cell::Cell;

const SIDE: u32 = 400;

const GOAL: u32 = SIDE * SIDE - 1;

#[derive(Drop)]
pub struct Grid {
    pub walled: bool,
    // How often a node was taken apart, and how often a move was tried.
    pub opened: Cell<u64>,
    pub tried: Cell<u64>,
}

// A place in the grid.
#[derive(Drop)]
pub struct Spot {
    row: u32,
    col: u32,
    ghost within: { (row < 400) × (col < 400) },
}

// The column of the gap in an odd row.
fn gap(row: u32) -> u32
    ensures { result ≡ gap_of row }
{
    if row % 4 == 1 { 0 } else { SIDE - 1 }
}

impl Spot {
    fn node(&self) -> u32
        ensures { result ≡ self.now.row * 400 + self.now.col }
    {
        self.row * SIDE + self.col
    }
}

impl Grid {
    // The node at a place, or `None` where a wall stands.
    fn free(&self, spot: Spot) -> Option<u32>
        ensures { result ≡ node_at self.now.walled spot.row spot.col }
    {
        if self.walled && spot.row % 2 == 1 && spot.col != gap(spot.row) {
            None
        } else {
            Some(spot.node())
        }
    }

    // The node above a place, on its right, below it or on its left.
    // Kept: a move is a number and no enum, since the moves of every graph are numbered.
    fn beside(&self, place: &Spot, by: u32) -> Option<u32>
        ensures { result ≡ moved self.now.walled place.now.row place.now.col by }
    {
        let row = place.row;
        let col = place.col;
        match by {
            0 if 0 < row => self.free(Spot { row: row - 1, col }),
            1 if col + 1 < SIDE => self.free(Spot { row, col: col + 1 }),
            2 if row + 1 < SIDE => self.free(Spot { row: row + 1, col }),
            3 if 0 < col => self.free(Spot { row, col: col - 1 }),
            _ => None,
        }
    }
}

impl Graph for Grid {
    type Place = Spot;

    ghost meaning = { λ x. grid x.walled };

    ghost node = { λ x p. p.row * 400 + p.col };

    ghost valid = { λ x p. Unit {0} };

    ghost sound = { λ x. grid_sound x.walled };

    fn size(&self) -> u32 {
        SIDE * SIDE
    }

    fn moves(&self) -> u32 {
        4
    }

    fn first(&self) -> u32 {
        0
    }

    fn open(&self, at: u32) -> Spot {
        self.opened.update(|n| n.wrapping_add(1));
        Spot {
            row: at / SIDE,
            col: at % SIDE,
        }
    }

    fn is_goal(&self, place: &Spot) -> bool {
        place.node() == GOAL
    }

    #[tactic(auto, using(crate::proofs::Spots::at_spot))]
    fn step(&self, place: &Spot, by: u32) -> Option<u32> {
        self.tried.update(|n| n.wrapping_add(1));
        self.beside(place, by)
    }
}
