// Thermometers: from cell to cell, beginning at the bulb, the digits rise.
#![tactic(auto)]

mod kind;
mod steps;

pub use kind::Thermometer;
