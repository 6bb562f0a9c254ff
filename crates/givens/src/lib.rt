// Givens: a line of characters, one for each cell, that are a digit or a blank.
#![tactic(auto)]

mod characters;
mod kind;

pub use kind::Givens;
