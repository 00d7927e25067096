// Running a deck: it is read, checked and played, and the replies are written to a lent output.

#![tactic(auto)]

mod running;
mod showing;
mod stop;

pub use running::{CELLS, LEAST_OUTPUT, RECORDS, run};
pub use stop::{Fault, Refusal};
