ghost use Rattle.std.specs.Prelude.{◌≡◌};
ghost use Rattle.desk.specs.declared.fault.EncodeFault.TheVariants.{Memory, Text};

use crate::statement::TextFault;
use draft::DraftFault;
use std::alloc::AllocError;
use thiserror::Error;

// Why a draft text has no clause text.
#[derive(Clone, Copy, PartialEq, Eq, Debug, Error)]
pub enum EncodeFault {
    // The text is no draft text.
    #[error("{0}")]
    Text(TextFault),
    // What the line says is refused by the draft.
    #[error("line {line}: {fault}")]
    Draft { line: usize, fault: DraftFault },
    // There is not enough memory.
    #[error("not enough memory")]
    Memory,
}

impl From<TextFault> for EncodeFault {
    ghost from_gives = { λ e r. r ≡ Text e };

    fn from(fault: TextFault) -> EncodeFault {
        EncodeFault::Text(fault)
    }
}

impl From<AllocError> for EncodeFault {
    ghost from_gives = { λ e r. r ≡ Memory };

    fn from(_fault: AllocError) -> EncodeFault {
        EncodeFault::Memory
    }
}
