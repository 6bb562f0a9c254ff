ghost use Rattle.std.specs.Prelude.{◌≡◌};
ghost use Rattle.part_text.specs.Fault.{refusal};

use parts::KindFault;
use places::{PlaceFault, Refusal};
use std::alloc::{AllocError, AllocFailed};
use thiserror::Error;

// Why a text is no part.
#[derive(Clone, Copy, PartialEq, Eq, Debug, Error)]
pub enum PartTextFault<'a> {
    // It has no four words for the totaller, the side, the kind and the total.
    #[error("a part is `TOTALLER SIDE KIND TOTAL BODY`")]
    TooFewWords,
    // The first word names no totaller.
    #[error("{0:?} names no totaller: they are `running` and `adder`")]
    Method(&'a str),
    // The second word is not the side of a board.
    #[error("{0:?} is no side: they are 4 and 9")]
    Side(&'a str),
    // The third word names no kind.
    #[error("{0:?} names no kind: they are `givens`, `cage`, `thermometer` and `arrow`")]
    Kind(&'a str),
    // The fourth word is no number of 32 bits.
    #[error("{0:?} is no number from 0 to 4294967295")]
    Total(&'a str),
    // The word stands for a cell, and is no number of 8 bits.
    #[error("{0:?} is no cell: it is a number from 0 to 255")]
    Cell(&'a str),
    // The word stands behind the line of givens.
    #[error("{0:?} stands behind the line of givens")]
    Behind(&'a str),
    // There is not enough memory.
    #[error("not enough memory")]
    Memory,
}

impl<T: Drop> From<AllocFailed<T>> for PartTextFault<'_> {
    fn from(_fault: AllocFailed<T>) -> Self {
        PartTextFault::Memory
    }
}

impl From<AllocError> for PartTextFault<'_> {
    fn from(_fault: AllocError) -> Self {
        PartTextFault::Memory
    }
}

// Why a board with a part is refused.
#[derive(Clone, Copy, PartialEq, Eq, Debug)]
pub enum PartFault {
    // The place refused a clause of the empty board.
    Base(PlaceFault),
    // The kind refused the part.
    Kind(KindFault),
}

impl From<PartFault> for Refusal {
    ghost from_gives = { λ e r. r ≡ refusal e };

    fn from(fault: PartFault) -> Refusal {
        match fault {
            PartFault::Base(fault) => Refusal::from(fault),
            PartFault::Kind(fault) => Refusal::from(fault),
        }
    }
}
