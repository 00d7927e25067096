// A site's estimates and votes, for any two plants.

#![tactic(auto)]

mod arranged;
pub mod by_number;
mod estimates;
mod reach;
mod set;
mod steps;
mod votes;

pub use arranged::{first_estimate, hidden_reach, see, vote};
pub use set::PairSet;

#[cfg(test)]
mod tests;
