// A pair of clones: two cells that have the same digit. It is a sample of a kind that is added to the four.
#![tactic(auto)]

mod kind;
mod same;

pub use kind::ClonePair;
