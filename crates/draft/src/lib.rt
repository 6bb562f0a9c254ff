// Drafts: a puzzle in the making, as clauses in a place.
#![tactic(auto)]

mod fault;
mod state;

pub use fault::DraftFault;
pub use state::Draft;
