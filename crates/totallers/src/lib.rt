// Totallers: ways to write "the weights of the true items add to the target" as clauses.
#![tactic(auto)]

mod fault;
mod sum;
mod totaller;

pub use fault::TotallerFault;
pub use sum::Sum;
pub use totaller::Totaller;
