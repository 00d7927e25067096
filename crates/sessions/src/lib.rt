// The boxes at work: sessions, their calls, and what is promised over whole histories.

#![tactic(auto)]

mod call;
mod session;

pub use call::{Call, Refusal, Reply};
pub use session::{Session, Site};
