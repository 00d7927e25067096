// Ballots.
ghost use Rattle.std.specs.Prelude.{List};
ghost use Rattle.control.specs.Arrangements.{meant};
ghost use Rattle.sessions.specs.Calls.{Does};
ghost use Rattle.sessions.specs.Histories.{EqualVotes, Exchange, History};
ghost use Rattle.sessions.specs.Status.{running, status};

use super::{Open, Session};
use crate::call::{Call, Refusal, Reply};
use control::Arrangement;
use plants::{Mask, Plant};
use sites::by_number::vote;

impl Session {
    // Answers and keeps one site's vote for this round.
    pub fn ballot<P: Plant, S: Plant>(
        &mut self,
        arrangement: &Arrangement<'_, P, S>,
        site: u8,
    ) -> Result<Mask, Refusal>
        ensures does { Does (meant arrangement.now) (status self.old) (Call.Ballot site) (Reply.Voted result) (status self.new) }
        ensures equal { (h : List Exchange) → History (meant arrangement.now) h (status self.old) → EqualVotes (meant arrangement.now) h site result }
    {
        let Some(open) = &mut self.open else {
            return Err(Refusal::Closed);
        };
        open.ballot(arrangement, site)
    }
}

impl Open {
    // The call on an open session.
    fn ballot<P: Plant, S: Plant>(
        &mut self,
        arrangement: &Arrangement<'_, P, S>,
        site: u8,
    ) -> Result<Mask, Refusal>
        ensures { Does (meant arrangement.now) (running self.old) (Call.Ballot site) (Reply.Voted result) (running self.new) }
    {
        self.admit(arrangement)?;
        if site < 1 || site > arrangement.problem.sites() {
            return Err(Refusal::NoSite);
        }
        let cast = self.sites[site as usize - 1].ballot;
        if cast.is_some() {
            return Err(Refusal::HasVoted);
        }
        let pairs = self.pairs(arrangement);
        let record = &mut self.sites[site as usize - 1];
        let mask = vote(&pairs, site, record.estimate);
        record.ballot = Some(mask);
        Ok(mask)
    }
}
