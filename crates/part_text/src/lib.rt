// Boards with one part, as text: read from words, and written as a clause text by any totaller and any kind.
#![tactic(auto)]

mod fault;
mod part;
mod read;
mod writing;

pub use fault::{PartFault, PartTextFault};
pub use part::{KindName, Part, Side};
pub use read::read_part;
pub use writing::write_part;
