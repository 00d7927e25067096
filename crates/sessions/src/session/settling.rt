// Settling a round: fusion of the ballots, event by event.
ghost use Rattle.std.specs.Prelude.{◌≡◌, suc, not, ◌&&◌, ◌||◌, List, ◌==◌};
ghost use Rattle.plants.specs.Ranges.{any, all};
ghost use Rattle.control.specs.Arrangements.{meant};
ghost use Rattle.control.specs.Problems.{setup};
ghost use Rattle.theory.specs.Rules.{fusion};
ghost use Rattle.sessions.specs.Calls.{Does, allowed_in, fused_by, has_voted, said};
ghost use Rattle.sessions.specs.Histories.{AllowsExactly, Exchange, History};
ghost use Rattle.sessions.specs.Status.{running, status};

use super::{Open, Session};
use crate::call::{Call, Refusal, Reply};
use control::{Arrangement, Mode, Problem};
use plants::{Event, Mask, Plant, contains};

impl Session {
    // Answers and keeps the mask of the events that fusion allows in this round, once every site has voted.
    pub fn settle<P: Plant, S: Plant>(
        &mut self,
        arrangement: &Arrangement<'_, P, S>,
    ) -> Result<Mask, Refusal>
        ensures does { Does (meant arrangement.now) (status self.old) Call.Settle (Reply.Allowed result) (status self.new) }
        ensures exactly { (h : List Exchange) → History (meant arrangement.now) h (status self.old) → AllowsExactly (meant arrangement.now) h result }
    {
        let Some(open) = &mut self.open else {
            return Err(Refusal::Closed);
        };
        open.settle(arrangement)
    }

    // The events that the round allows; none while ballots are cast.
    pub fn allowed(&self) -> Mask
        ensures { result ≡ allowed_in (status self.now).round }
    {
        self.open.and_then(|open| open.settled).unwrap_or(0)
    }
}

impl Open {
    // The call on an open session.
    fn settle<P: Plant, S: Plant>(
        &mut self,
        arrangement: &Arrangement<'_, P, S>,
    ) -> Result<Mask, Refusal>
        ensures { Does (meant arrangement.now) (running self.old) Call.Settle (Reply.Allowed result) (running self.new) }
    {
        self.admit(arrangement)?;
        if self.settled.is_some() {
            return Err(Refusal::IsSettled);
        }
        if !self.all_voted(arrangement.problem) {
            return Err(Refusal::BallotMissing);
        }
        let mask = self.fuse(arrangement.problem);
        self.settled = Some(mask);
        Ok(mask)
    }

    // Whether each of the sites 1 to n has voted.
    fn all_voted(&self, problem: &Problem) -> bool
        ensures { result ≡ all (suc (setup problem.now).sites) (λ i. (i == 0) || has_voted (running self.now) i) }
    {
        (1..=problem.sites()).all(|site| self.record(site).ballot.is_some())
    }

    // The events that fusion allows.
    // Kept: votes gather their mask by such a loop too; shared, it would have to ask that a closure may be called, and
    // public functions ask nothing.
    fn fuse(&self, problem: &Problem) -> Mask
        ensures { result ≡ fused_by (setup problem.now) (running self.now) }
    {
        let mut mask = 0;
        for event in 0..problem.events() {
            if self.allows(problem, event) {
                mask += 1 << event;
            }
        }
        mask
    }

    // Whether fusion allows an event: a disjunctive one needs one yes of its controllers, any other a yes from all.
    fn allows(&self, problem: &Problem, event: Event) -> bool
        ensures { result ≡ fusion (setup problem.now) event (λ i. said (running self.now) i event) }
    {
        match problem.mode(event) {
            Mode::Disjunctive => self.some_yes(problem, event),
            Mode::Conjunctive => self.all_yes(problem, event),
        }
    }

    // Whether some controller of an event said yes.
    fn some_yes(&self, problem: &Problem, event: Event) -> bool
        ensures { result ≡ any (suc (setup problem.now).sites) (λ i. (setup problem.now).controls i event && said (running self.now) i event) }
    {
        (1..=problem.sites()).any(|site| problem.controls(site, event) && self.said(site, event))
    }

    // Whether all controllers of an event said yes.
    fn all_yes(&self, problem: &Problem, event: Event) -> bool
        ensures { result ≡ all (suc (setup problem.now).sites) (λ i. not ((setup problem.now).controls i event) || said (running self.now) i event) }
    {
        (1..=problem.sites()).all(|site| !problem.controls(site, event) || self.said(site, event))
    }

    // Whether a site said yes to an event in this round.
    fn said(&self, site: u8, event: Event) -> bool
        ensures { result ≡ said (running self.now) site event }
    {
        contains(self.record(site).ballot.unwrap_or(0), event)
    }
}
