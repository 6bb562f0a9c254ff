// Stores: places over a lent buffer, for any way of spelling clauses in its elements.
#![tactic(auto)]

mod store;
mod way;

pub use store::Store;
pub use way::Spelling;
