// The theorems of the subject. Each function only carries one: its contract is the theorem, so the crate is proved only
// with it.
ghost use Rattle.theory.specs.Example.{WorkedExample};
ghost use Rattle.theory.specs.Theorems.{FusionInWords, LegalIsPossible, EstimatesAreExact, HiddenReachIsClosure, RunsAndCounterexamples, CounterexampleLeavesNoRules, VotesGenerateLegal};

// What the controllers say decides of an event, by its kind.
pub fn fusion_in_words()
    ensures { FusionInWords }
{}

// A legal string is possible, its fronts are legal, and it leads to one pair.
pub fn legal_is_possible()
    ensures { LegalIsPossible }
{}

// After any sight, a site's estimate holds exactly the pairs to which some legal string with that sight leads.
pub fn estimates_are_exact()
    ensures { EstimatesAreExact }
{}

// The hidden reach as a mask holds exactly the pairs of the hidden reach as a relation.
pub fn hidden_reach_is_closure()
    ensures { HiddenReachIsClosure }
{}

// Counterexamples and runs that reach the goal come from each other, with as many moves.
pub fn runs_and_counterexamples()
    ensures { RunsAndCounterexamples }
{}

// Where some event has a counterexample, no local rules generate exactly the legal strings.
pub fn counterexample_leaves_no_rules()
    ensures { CounterexampleLeavesNoRules }
{}

// Where no event has one, the votes taken as rules generate exactly the legal strings; so some local rules do.
pub fn votes_generate_legal()
    ensures { VotesGenerateLegal }
{}

// What the definitions say of the worked example, with event 2 conjunctive and disjunctive.
pub fn worked_example()
    ensures { WorkedExample }
{}
