// Questions to a problem. Each answers by what the problem means, for any site and event number.
ghost use Rattle.std.specs.Prelude.{◌≡◌, suc};
ghost use Rattle.plants.specs.Masks.{mask_of};
ghost use Rattle.control.specs.Ranges.{most_sites};
ghost use Rattle.control.specs.Problems.{setup, mode_of, row_bit};

use super::{Mode, Problem, SITES};
use plants::{Event, Mask, contains};

impl Problem {
    pub fn events(&self) -> u8
        ensures { result ≡ (setup self.now).events }
    {
        self.events
    }

    pub fn sites(&self) -> u8
        ensures { result ≡ (setup self.now).sites }
    {
        self.sites
    }

    // Whether a site, numbered from 1, sees an event.
    pub fn sees(&self, site: u8, event: Event) -> bool
        ensures { result ≡ (setup self.now).sees site event }
    {
        in_row(&self.seen, site, event)
    }

    // Whether a site controls an event.
    pub fn controls(&self, site: u8, event: Event) -> bool
        ensures { result ≡ (setup self.now).controls site event }
    {
        in_row(&self.controlled, site, event)
    }

    // The sites that control an event, as a mask: bit i stands for site i.
    pub fn controllers(&self, event: Event) -> u8
        ensures { result ≡ mask_of (suc most_sites) (λ i. (setup self.now).controls i event) }
    {
        // Kept: sites and sessions gather masks by such loops too. One function for all would take the test, and have to
        // require that it may be called; public functions here require nothing.
        let mut mask = 0;
        for site in 0..=SITES {
            if self.controls(site, event) {
                mask += 1 << site;
            }
        }
        mask
    }

    // How the controllers' answers to an event are fused.
    pub fn mode(&self, event: Event) -> Mode
        ensures { result ≡ mode_of ((setup self.now).disjunctive event) }
    {
        if contains(self.modes, event) {
            Mode::Disjunctive
        } else {
            Mode::Conjunctive
        }
    }
}

// Whether a site's row has an event; rows stand from 0, and sites are numbered from 1.
fn in_row(rows: &[Mask; 4], site: u8, event: Event) -> bool
    ensures { result ≡ row_bit rows.now site event }
{
    if site < 1 || site > SITES {
        return false;
    }
    contains(rows[site as usize - 1], event)
}
