// Running totals: a totaller that keeps every sum of the first items, up to the target.
#![tactic(auto)]

mod running;
mod running_step;
mod running_table;

pub use running::RunningTotals;
