// The pairs of an arrangement by their numbers.

#![tactic(auto)]

mod numbered;

pub use numbered::{MOST_PAIRS, Numbered};

#[cfg(test)]
mod tests;
