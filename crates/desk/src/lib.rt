// The desk: draft texts in, clause texts out.
#![tactic(auto)]

mod encoding;
mod fault;
mod read;
mod statement;
mod words;

pub use encoding::encode;
pub use fault::EncodeFault;
pub use read::read_draft;
pub use statement::{Reason, SideLine, Statement, TextFault};
pub use words::statement_word;
