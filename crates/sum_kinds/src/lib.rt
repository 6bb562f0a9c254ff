// Cages and arrows: kinds of part that say what the digits of some cells add to.
#![tactic(auto)]

mod arrow;
mod cage;
mod fill;
mod items;
mod items_methods;
mod judging;

pub use arrow::Arrow;
pub use cage::Cage;
