// The worked cases, as one theorem.

#![tactic(auto)]

ghost use Rattle.worked.specs.Cases.{WorkedCases};

// What check answers to the worked examples, which replies their decks get, and what products count: each is a sentence over
// the definitions that the contracts of check, of the sessions and of run cite.
pub fn worked_cases()
    ensures { WorkedCases }
{}
