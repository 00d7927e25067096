// Replies: what a deck is answered by, and the lines that the answers are written as.

#![tactic(auto)]

mod lines;
mod reply;
mod strings;

pub use lines::NoRoom;
pub use reply::Reply;
pub use strings::{MOST_MOVES, write_clash};
