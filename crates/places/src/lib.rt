// Places: stores of clauses. What every place promises, which clauses any place takes, and where the last of them begin.
#![tactic(auto)]

mod clause;
mod fault;
mod place;
mod scan;

pub use clause::{LAST_VARIABLE, check_clause};
pub use fault::{Layer, PlaceFault, Refusal};
pub use place::Place;
pub use scan::{Element, last_lines};
