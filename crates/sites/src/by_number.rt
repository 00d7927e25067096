// Estimates and votes of an arrangement whose pairs have numbers. These answer for every argument.
pub use crate::estimates::{first_estimate, see};
pub use crate::reach::hidden_reach;
pub use crate::votes::vote;
