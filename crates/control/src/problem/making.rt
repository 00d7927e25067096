// Making problems.
ghost use Rattle.std.specs.Prelude.{◌≡◌, ◌≤◌, true, false, is_ok};
ghost use Rattle.control.specs.Ranges.{in_rows, most_sites};
ghost use Rattle.control.specs.Problems.{setup, fresh, filled, kept_rows, making, masks_below, rows_below, unmade_number};

use super::{Problem, SITES, Unmade};
use plants::{EVENTS, Mask, is_below};

impl Problem {
    // One event, one site and no bit.
    pub fn new() -> Problem
        ensures { setup result ≡ fresh }
    {
        Problem {
            events: 1,
            sites: 1,
            modes: 0,
            seen: [0; 4],
            controlled: [0; 4],
        }
    }

    // Fills the problem from plain numbers and a row of masks for each site, rows past the site count being dropped; or
    // refuses, and leaves the problem as it was.
    pub fn make(
        &mut self,
        events: u8,
        sites: u8,
        modes: Mask,
        seen: [Mask; 4],
        controlled: [Mask; 4],
    ) -> Result<(), Unmade>
        ensures value { result ≡ making events sites modes seen controlled }
        ensures after { is_ok result ≡ true → setup self.new ≡ filled events sites modes seen controlled }
        ensures same { is_ok result ≡ false → self.new ≡ self.old }
    {
        if events < 1 || events > EVENTS {
            return Err(Unmade::EventCount);
        }
        if sites < 1 || sites > SITES {
            return Err(Unmade::SiteCount);
        }
        let seen = keep_rows(seen, sites);
        let controlled = keep_rows(controlled, sites);
        if !masks_fit(modes, &seen, &controlled, events) {
            return Err(Unmade::MaskBit);
        }
        let events_controlled = union(&controlled);
        if modes | events_controlled != events_controlled {
            return Err(Unmade::ModeBit);
        }
        *self = Problem {
            events,
            sites,
            modes,
            seen,
            controlled,
        };
        Ok(())
    }
}

impl Unmade {
    // The refusal's number.
    pub fn number(self) -> u8
        ensures { result ≡ unmade_number self }
    {
        self as u8
    }
}

// The rows, with those past the site count dropped.
fn keep_rows(rows: [Mask; 4], sites: u8) -> [Mask; 4]
    requires { sites ≤ most_sites }
    ensures { result ≡ kept_rows sites rows }
{
    let mut kept = rows;
    kept[sites as usize..].fill(0);
    kept
}

// The events that some row has.
fn union(rows: &[Mask; 4]) -> Mask
    ensures { result ≡ in_rows rows.now }
{
    let [a, b, c, d] = *rows;
    a | b | c | d
}

// Whether no mask has a bit at or above the event count.
fn masks_fit(modes: Mask, seen: &[Mask; 4], controlled: &[Mask; 4], events: u8) -> bool
    ensures { result ≡ masks_below events modes seen.now controlled.now }
{
    is_below(modes, events) && are_below(seen, events) && are_below(controlled, events)
}

fn are_below(rows: &[Mask; 4], events: u8) -> bool
    ensures { result ≡ rows_below events rows.now }
{
    rows.iter().all(|row| is_below(*row, events))
}
