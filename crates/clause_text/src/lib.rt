// Clause texts: a heading, and a line for each clause.
#![tactic(auto)]

mod fault;
mod writing;

pub use fault::WriteFault;
pub use writing::{LONGEST_HEADING, ROOM, clause_text, with_heading};
