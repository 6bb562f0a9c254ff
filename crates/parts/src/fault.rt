ghost use Rattle.std.specs.Prelude.{◌≡◌};
ghost use Rattle.parts.specs.declared.fault.KindFault.TheVariants.{Place, Totaller};
ghost use Rattle.parts.specs.Fault.{refusal};

use places::{Layer, PlaceFault, Refusal};
use totallers::TotallerFault;

// Why a kind refuses a part, does not write it, or does not judge a grid by it.
#[derive(Clone, Copy, PartialEq, Eq, Debug)]
pub enum KindFault {
    // The part's body has a wrong length.
    BodyLength,
    // The character at `index` of a line of givens is no digit of the board, and no blank.
    Character { index: usize },
    // The cell at `index` lies beyond the board.
    Cell { index: usize },
    // The cell at `index` stands in the body before.
    Repeated { index: usize },
    // The cell at `index` does not touch the one before it.
    Apart { index: usize },
    // The total lies outside 1 to the sum of all digits.
    Total,
    // The first fresh number is the number of a cell's variable.
    FirstNumber,
    // The grid has not as many entries as the board has cells.
    GridLength,
    // The grid's entry at `index` is no digit of the board.
    GridDigit { index: usize },
    // The totaller refused the part's sum.
    Totaller(TotallerFault),
    // The place refused a clause that is not of the sum.
    Place(PlaceFault),
}

impl KindFault {
    pub fn refusal(self) -> Refusal
        ensures { result ≡ refusal self }
    {
        let (number, position) = match self {
            KindFault::BodyLength => (2, 0),
            KindFault::Character { index } => (3, index),
            KindFault::Cell { index } => (4, index),
            KindFault::Repeated { index } => (5, index),
            KindFault::Apart { index } => (6, index),
            KindFault::Total => (7, 0),
            KindFault::FirstNumber => (8, 0),
            KindFault::GridLength => (12, 0),
            KindFault::GridDigit { index } => (13, index),
            KindFault::Totaller(fault) => return fault.refusal(),
            KindFault::Place(fault) => return fault.refusal(),
        };
        Refusal {
            number,
            layer: Layer::Kind,
            position,
        }
    }
}

impl From<KindFault> for Refusal {
    ghost from_gives = { λ e r. r ≡ refusal e };

    fn from(fault: KindFault) -> Refusal {
        fault.refusal()
    }
}

impl From<TotallerFault> for KindFault {
    ghost from_gives = { λ e r. r ≡ Totaller e };

    fn from(fault: TotallerFault) -> KindFault {
        KindFault::Totaller(fault)
    }
}

impl From<PlaceFault> for KindFault {
    ghost from_gives = { λ e r. r ≡ Place e };

    fn from(fault: PlaceFault) -> KindFault {
        KindFault::Place(fault)
    }
}
