// New sessions, and what every call after the opening asks first.
ghost use Rattle.std.specs.Prelude.{◌≡◌, MatchResult, true, false};
ghost use Rattle.control.specs.Arrangements.{meant};
ghost use Rattle.pairs.specs.Numbered.{numbered};
ghost use Rattle.sessions.specs.Calls.{same_counts, site as site_of};
ghost use Rattle.sessions.specs.Status.{closed, running, status};

use super::{Open, Session, Site};
use crate::call::Refusal;
use control::Arrangement;
use pairs::Numbered;
use plants::Plant;

impl Session {
    // A closed session.
    pub fn new() -> Session
        ensures { status result ≡ closed }
    {
        Session { open: None }
    }
}

impl Open {
    // Whether what is brought has the counts of the opening.
    pub(crate) fn admit<P: Plant, S: Plant>(
        &self,
        arrangement: &Arrangement<'_, P, S>,
    ) -> Result<(), Refusal>
        ensures { MatchResult result (λ _. same_counts (meant arrangement.now) (running self.now) ≡ true) (λ x. (same_counts (meant arrangement.now) (running self.now) ≡ false) × (x ≡ Refusal.CountDiffers)) }
    {
        if self.plant_count != arrangement.plant.count()
            || self.spec_count != arrangement.spec.count()
            || self.site_count != arrangement.problem.sites()
        {
            return Err(Refusal::CountDiffers);
        }
        Ok(())
    }

    // The pairs of what is brought, which has the counts of the opening.
    pub(crate) fn pairs<'a, P: Plant, S: Plant>(
        &self,
        arrangement: &'a Arrangement<'a, P, S>,
    ) -> Numbered<'a, P, S>
        requires { same_counts (meant arrangement.now) (running self.now) ≡ true }
        ensures { numbered result ≡ meant arrangement.now }
    {
        Numbered::of(arrangement).unwrap()
    }

    // A site's record; sites are numbered from 1.
    pub(crate) fn record(&self, site: u8) -> Site
        ensures { result ≡ site_of (running self.now) site }
    {
        let place = (site as usize).saturating_sub(1);
        self.sites.get(place).copied().unwrap_or(Site {
            estimate: 0,
            ballot: None,
        })
    }
}
