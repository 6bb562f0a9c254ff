ghost use Rattle.std.specs.Prelude.{◌≡◌};
ghost use Rattle.sum_text.specs.declared.fault.SumTextFault.TheVariants as fault;

use std::alloc::AllocFailed;
use thiserror::Error;

// Why a text is no sum.
#[derive(Clone, Copy, PartialEq, Eq, Debug, Error)]
pub enum SumTextFault<'a> {
    // It has no three words for the totaller, the target and the first fresh number.
    #[error("a sum is `METHOD TARGET FIRST VARIABLE:WEIGHT ...`")]
    TooFewWords,
    // The first word names no totaller.
    #[error("{0:?} names no totaller: they are `running` and `adder`")]
    Method(&'a str),
    // The word stands for the target or the first fresh number, and is no number of 32 bits.
    #[error("{0:?} is no number from 0 to 4294967295")]
    Number(&'a str),
    // The word stands for an item, and is not a variable, a colon and a weight of 8 bits.
    #[error("{0:?} is no item: it is a variable, `:` and a weight up to 255")]
    Item(&'a str),
    // There is not enough memory.
    #[error("not enough memory")]
    Memory,
}

impl<T: Drop> From<AllocFailed<T>> for SumTextFault<'_> {
    ghost from_gives = { λ e r. r ≡ fault.Memory };

    fn from(_fault: AllocFailed<T>) -> Self {
        SumTextFault::Memory
    }
}
