// The adder network: a totaller that adds the weights in binary.
#![tactic(auto)]

mod adder;
mod bit;
mod carries;
mod lines;
mod network;
mod totaller;
mod variable;

pub use totaller::AdderNetwork;
