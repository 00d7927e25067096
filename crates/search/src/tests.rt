// A ring of twelve nodes with two goals. Move 0 goes one node on, and move 1 one back.
ghost use Rattle.std.specs.Prelude.{◌<◌};
ghost use Rattle.search.specs.Rings.{ring, ring_sound};

use super::*;

struct Ring {
    near: u32,
    far: u32,
}

#[derive(Drop)]
struct Spot(u32);

impl Graph for Ring {
    type Place = Spot;

    ghost meaning = { λ x. ring x.near x.far };

    ghost sound = { λ x. ring_sound x.near x.far };

    ghost node = { λ x p. p.0 };

    ghost valid = { λ x p. p.0 < 12 };

    fn size(&self) -> u32 {
        12
    }

    fn moves(&self) -> u32 {
        2
    }

    fn first(&self) -> u32 {
        0
    }

    fn open(&self, at: u32) -> Spot {
        Spot(at)
    }

    fn is_goal(&self, place: &Spot) -> bool {
        place.0 == self.near || place.0 == self.far
    }

    fn step(&self, place: &Spot, by: u32) -> Option<u32> {
        Some((place.0 + 10 * by + 1) % 12)
    }
}

// Two goals at different distance: four moves back are fewer than five on.
#[test]
fn takes_the_nearer_goal(rt: HostRuntime) {
    let mut cells = [7; 12];
    assert_eq!(rt; search(&Ring { near: 8, far: 5 }, &mut cells), Ok(Some(4)));
    assert_eq!(rt; [cells[0], cells[1], cells[2], cells[3]], [1, 1, 1, 1]);
}

// Two goals at the same distance: the run with the lower moves comes first.
#[test]
fn takes_the_first_in_order(rt: HostRuntime) {
    let mut cells = [u64::MAX; 13];
    assert_eq!(rt; search(&Ring { near: 9, far: 3 }, &mut cells), Ok(Some(3)));
    assert_eq!(rt; [cells[0], cells[1], cells[2]], [0, 0, 0]);
}

#[test]
fn stays_at_a_first_goal(rt: HostRuntime) {
    assert_eq!(rt;
        search(&Ring { near: 0, far: 1 }, &mut [0; 12]),
        Ok(Some(0))
    );
}

// Neither number is a node.
#[test]
fn finds_no_goal(rt: HostRuntime) {
    assert_eq!(rt; search(&Ring { near: 12, far: 99 }, &mut [3; 12]), Ok(None));
}

#[test]
fn refuses_too_few_cells(rt: HostRuntime) {
    let mut cells = [5; 11];
    assert_eq!(rt;
        search(&Ring { near: 8, far: 5 }, &mut cells),
        Err(TooFewCells)
    );
    assert_eq!(rt; cells, [5; 11]);
}
