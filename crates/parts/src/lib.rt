// Parts of a draft: what can be wrong with one, and the tests that kinds of part share.
#![tactic(auto)]

mod cells;
mod fault;
mod grid;
mod part;

pub use cells::{check_cells, check_distinct, check_first, check_length, check_touching, touches};
pub use fault::KindFault;
pub use grid::check_grid;
pub use part::Part;
