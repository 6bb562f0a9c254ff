ghost use Rattle.std.specs.Prelude.{◌≡◌};
ghost use Rattle.draft.specs.declared.fault.DraftFault.TheVariants.{Place};
ghost use Rattle.draft.specs.Fault.{refusal};

use places::{Layer, PlaceFault, Refusal};
use thiserror::Error;

// Why a draft's call is refused.
#[derive(Clone, Copy, PartialEq, Eq, Debug, Error)]
pub enum DraftFault {
    // There is no board of the side.
    #[error("the side is not 4 or 9")]
    Side,
    // The place holds clauses already.
    #[error("the place holds clauses already")]
    NotEmpty,
    // The buffer is too short for the heading.
    #[error("the buffer is too short for the heading")]
    HeadingLength,
    // The place refused a clause.
    #[error("the clauses of this board do not fit the room that the program has for them")]
    Place(PlaceFault),
}

impl DraftFault {
    pub fn refusal(self) -> Refusal
        ensures { result ≡ refusal self }
    {
        let number = match self {
            DraftFault::Side => 1,
            DraftFault::NotEmpty => 21,
            DraftFault::HeadingLength => 12,
            DraftFault::Place(fault) => return fault.refusal(),
        };
        Refusal {
            number,
            layer: Layer::Draft,
            position: 0,
        }
    }
}

impl From<DraftFault> for Refusal {
    ghost from_gives = { λ e r. r ≡ refusal e };

    fn from(fault: DraftFault) -> Refusal {
        fault.refusal()
    }
}

impl From<PlaceFault> for DraftFault {
    ghost from_gives = { λ e r. r ≡ Place e };

    fn from(fault: PlaceFault) -> DraftFault {
        DraftFault::Place(fault)
    }
}
