// Boards: their rows, columns and boxes, and what every draft says of them.
#![tactic(auto)]

mod base;
mod board;
mod cells;
mod line;

pub use base::write_base;
pub use board::Board;
pub use cells::write_no_repeat;
pub use line::Line;
