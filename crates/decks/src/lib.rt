// Decks: problems as text, read to their first fault.

#![tactic(auto)]

mod deck;
mod reader;
mod role;
mod stage;
mod unread;

pub use deck::{Deck, MOST_BYTES};
pub use unread::Unread;
