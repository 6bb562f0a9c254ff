// Sums as text: read from words, and written as a clause text by any totaller.
#![tactic(auto)]

mod fault;
mod read;
mod sum;
mod word;
mod writing;

pub use fault::SumTextFault;
pub use read::read_sum;
pub use sum::{Method, OwnedSum};
pub use word::{UnknownName, read_word};
pub use writing::write_sum;
