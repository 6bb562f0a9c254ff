// What the programs share: the standard streams, and how a program ends.
#![tactic(auto)]

mod ending;
mod fault;
mod streams;

pub use ending::ended;
pub use fault::Fault;
pub use streams::{Stream, StreamFault, read_input, write_output};
