// Events.
ghost use Rattle.std.specs.Prelude.{◌≡◌, List, ◌∷◌};
ghost use Rattle.control.specs.Arrangements.{meant};
ghost use Rattle.control.specs.Strings.{Legal};
ghost use Rattle.pairs.specs.Numbered.{numbered};
ghost use Rattle.sessions.specs.Calls.{Does, next_site, next_sites};
ghost use Rattle.sessions.specs.Histories.{AcceptsExactly, Exchange, History, accepted};
ghost use Rattle.sessions.specs.Status.{running, status};

use super::{Open, Session, Site};
use crate::call::{Call, Refusal, Reply};
use control::Arrangement;
use pairs::Numbered;
use plants::{Event, Plant, State, contains};
use sites::by_number::see;

impl Session {
    // Moves the plant by an event, tells the sites that see it, starts a new round and answers the plant's state. On a
    // settled round it accepts exactly the events that keep the accepted ones a legal string.
    pub fn happen<P: Plant, S: Plant>(
        &mut self,
        arrangement: &Arrangement<'_, P, S>,
        event: Event,
    ) -> Result<State, Refusal>
        ensures does { Does (meant arrangement.now) (status self.old) (Call.Happen event) (Reply.Moved result) (status self.new) }
        ensures legal { (h : List Exchange) → History (meant arrangement.now) h (status self.old) → Legal (meant arrangement.now) (accepted ((Call.Happen event, Reply.Moved result) ∷ h)) }
        ensures exactly { (h : List Exchange) → History (meant arrangement.now) h (status self.old) → AcceptsExactly (meant arrangement.now) h event result }
    {
        let Some(open) = &mut self.open else {
            return Err(Refusal::Closed);
        };
        open.happen(arrangement, event)
    }
}

impl Open {
    // The call on an open session.
    fn happen<P: Plant, S: Plant>(
        &mut self,
        arrangement: &Arrangement<'_, P, S>,
        event: Event,
    ) -> Result<State, Refusal>
        ensures { Does (meant arrangement.now) (running self.old) (Call.Happen event) (Reply.Moved result) (running self.new) }
    {
        self.admit(arrangement)?;
        if event >= arrangement.problem.events() {
            return Err(Refusal::NoEvent);
        }
        let mask = self.settled.ok_or(Refusal::NotSettled)?;
        if !contains(mask, event) {
            return Err(Refusal::NotAllowed);
        }
        let next = arrangement
            .plant
            .step(self.state, event)
            .ok_or(Refusal::NoStep)?;
        let pairs = self.pairs(arrangement);
        self.sites = self.tell_all(&pairs, event);
        self.state = next;
        self.settled = None;
        Ok(next)
    }

    // The sites' records in the round after an event.
    fn tell_all<P: Plant, S: Plant>(&self, pairs: &Numbered<'_, P, S>, event: Event) -> [Site; 4]
        ensures { result ≡ next_sites (numbered pairs.now) (running self.now) event }
    {
        [1, 2, 3, 4].map(|site| self.tell(pairs, site, event))
    }

    // A site's record in the round after an event: it is told the event if it sees it, and has not voted.
    fn tell<P: Plant, S: Plant>(&self, pairs: &Numbered<'_, P, S>, site: u8, event: Event) -> Site
        ensures { result ≡ next_site (numbered pairs.now) (running self.now) event site }
    {
        let before = self.record(site).estimate;
        let estimate = if pairs.arrangement.problem.sees(site, event) {
            see(pairs, site, before, event)
        } else {
            before
        };
        Site {
            estimate,
            ballot: None,
        }
    }
}
