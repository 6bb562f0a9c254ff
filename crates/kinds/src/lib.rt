// Kinds of part, and sets of them.
#![tactic(auto)]

mod kind;
mod set;

pub use kind::Kind;
pub use set::{Kinds, NewTo, With};
