ghost use Rattle.std.specs.Prelude.{◌≡◌};
ghost use Rattle.clause_text.specs.declared.fault.WriteFault.TheVariants.{Memory};

use places::Refusal;
use std::alloc::{AllocError, AllocFailed};
use std::fmt;

// Why something was not written as a clause text, where `F` says why it was refused.
#[derive(Clone, Copy, PartialEq, Eq, Debug)]
pub enum WriteFault<F> {
    Refused(F),
    // There is not enough memory.
    Memory,
}

impl<F> From<AllocError> for WriteFault<F> {
    ghost from_gives = { λ e r. r ≡ Memory };

    fn from(_fault: AllocError) -> WriteFault<F> {
        WriteFault::Memory
    }
}

impl<F, T: Drop> From<AllocFailed<T>> for WriteFault<F> {
    ghost from_gives = { λ e r. r ≡ Memory };

    fn from(_fault: AllocFailed<T>) -> WriteFault<F> {
        WriteFault::Memory
    }
}

// A refusal as it is reported.
impl<F: Copy + Into<Refusal>> fmt::Display for WriteFault<F> {
    fn fmt<W: fmt::Write>(&self, f: &mut fmt::Formatter<W>) -> fmt::Result {
        match *self {
            WriteFault::Refused(fault) => {
                let refusal: Refusal = fault.into();
                write!(f, "refused: {refusal}")
            }
            WriteFault::Memory => write!(f, "not enough memory"),
        }
    }
}
