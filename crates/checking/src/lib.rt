// Whether local rules can keep exactly the legal strings, and if not, a shortest run that shows why.

#![tactic(auto)]

mod asking;
mod deciding;
mod sizes;
mod tracing;
mod verdict;

pub use asking::check;
pub use sizes::cells_for;
pub use tracing::{TooShort, component};
pub use tuples::takes_part;
pub use verdict::{Refusal, Verdict};

#[cfg(test)]
mod tests;
