// The word place: clauses in a buffer of signed numbers.
#![tactic(auto)]

mod word;

pub use word::{WordPlace, Words};
