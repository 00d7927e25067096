// A site's votes.
ghost use Rattle.std.specs.Prelude.{◌≡◌};
ghost use Rattle.theory.specs.Estimates.{is_bad, is_legal, pairs as pairs_of, vote as vote_of};
ghost use Rattle.pairs.specs.Numbered.{numbered};
ghost use Rattle.sites.specs.Sites.{VotesBySight, some_below, vote_mask};

use crate::set::{PairSet, holds};
use control::{Mode, PairStep};
use pairs::Numbered;
use plants::{Event, Mask, Plant};

// A site's vote at an estimate, as a mask of events.
pub fn vote<P: Plant, S: Plant>(pairs: &Numbered<'_, P, S>, site: u8, estimate: PairSet) -> Mask
    ensures value { result ≡ vote_mask (numbered pairs.now) site estimate }
    ensures rules { VotesBySight (numbered pairs.now) site estimate result }
{
    // Kept: sessions gather a mask in this way too; one public function for both would have to require that a test may
    // be called.
    let mut mask = 0;
    for event in 0..pairs.arrangement.problem.events() {
        if says_yes(pairs, site, estimate, event) {
            mask += 1 << event;
        }
    }
    mask
}

// Whether a site says yes to an event: a conjunctive one is to be legal at some pair of the estimate, and a disjunctive one
// bad at none, of an estimate that is not empty.
fn says_yes<P: Plant, S: Plant>(
    pairs: &Numbered<'_, P, S>,
    site: u8,
    estimate: PairSet,
    event: Event,
) -> bool
    ensures { result ≡ vote_of (numbered pairs.now) site estimate event }
{
    let problem = pairs.arrangement.problem;
    problem.controls(site, event)
        && match problem.mode(event) {
            Mode::Conjunctive => some_legal(pairs, estimate, event),
            Mode::Disjunctive => estimate != 0 && !some_bad(pairs, estimate, event),
        }
}

// Whether an event has a legal step from some pair of a set.
// Kept: this and the next differ in a pattern; a test in its place would have a longer contract than the two together.
fn some_legal<P: Plant, S: Plant>(pairs: &Numbered<'_, P, S>, set: PairSet, event: Event) -> bool
    ensures { result ≡ some_below (numbered pairs.now) (pairs_of (numbered pairs.now)) set event is_legal }
{
    (0..pairs.count()).any(|n| holds(set, n) && matches!(pairs.step(n, event), PairStep::Legal(_)))
}

// Whether an event has a bad step from some pair of a set.
fn some_bad<P: Plant, S: Plant>(pairs: &Numbered<'_, P, S>, set: PairSet, event: Event) -> bool
    ensures { result ≡ some_below (numbered pairs.now) (pairs_of (numbered pairs.now)) set event is_bad }
{
    (0..pairs.count()).any(|n| holds(set, n) && matches!(pairs.step(n, event), PairStep::Bad))
}
