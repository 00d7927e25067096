// Problems, pairs of states, and the audit of a recorded list of events.

#![tactic(auto)]

mod arrangement;
mod pair;
mod problem;
mod recorded;

pub use arrangement::Arrangement;
pub use pair::{Pair, PairStep};
pub use problem::{Mode, Problem, SITES, Unmade};
pub use recorded::{Stop, Stopped};

#[cfg(test)]
mod tests;
