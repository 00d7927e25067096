// Plants: the interface, and three makes of it.

#![tactic(auto)]

mod counter;
mod masks;
mod plant;
mod product;
mod table;

pub use counter::Counter;
pub use masks::{contains, is_below, singleton};
pub use plant::{EVENTS, Event, MOST_STATES, Mask, Plant, State};
pub use product::Product;
pub use table::{Misfit, Table};

#[cfg(test)]
mod tests;
