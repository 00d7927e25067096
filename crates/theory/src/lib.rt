// The theorems of the subject, over what problems and plants mean, with no program in sight.

#![tactic(auto)]

mod moves;
mod theorems;

pub use moves::Move;
pub use theorems::{
    counterexample_leaves_no_rules, estimates_are_exact, fusion_in_words, hidden_reach_is_closure,
    legal_is_possible, runs_and_counterexamples, votes_generate_legal, worked_example,
};
