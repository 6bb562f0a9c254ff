// The text place: clauses as lines of text, and the heading of such a text.
#![tactic(auto)]

mod text;

pub use text::{Lines, TextPlace, write_heading};
