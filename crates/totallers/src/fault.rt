ghost use Rattle.std.specs.Prelude.{◌≡◌};
ghost use Rattle.totallers.specs.declared.fault.TotallerFault.TheVariants.{Place};
ghost use Rattle.totallers.specs.Fault.{refusal};

use places::{Layer, PlaceFault, Refusal};

// Why a totaller writes nothing, or not all.
#[derive(Clone, Copy, PartialEq, Eq, Debug)]
pub enum TotallerFault {
    // There are no items, or not as many weights as variables.
    Items,
    // The item at `index` has a weight outside 1 to 15, or a variable outside 1 to the number before the first fresh one,
    // or beyond 65,535; those before it have not.
    Item { index: usize },
    // The totaller does not take so many items with this target.
    NotTaken { items: usize },
    // A fresh number would lie beyond 65,535.
    FreshNumber,
    // The place refused a clause.
    Place(PlaceFault),
}

impl TotallerFault {
    pub fn refusal(self) -> Refusal
        ensures { result ≡ refusal self }
    {
        let (number, position) = match self {
            TotallerFault::Items => (8, 0),
            TotallerFault::Item { index } => (8, index),
            TotallerFault::NotTaken { items } => (23, items),
            TotallerFault::FreshNumber => (24, 0),
            TotallerFault::Place(fault) => return fault.refusal(),
        };
        Refusal {
            number,
            layer: Layer::Totaller,
            position,
        }
    }
}

impl From<TotallerFault> for Refusal {
    ghost from_gives = { λ e r. r ≡ refusal e };

    fn from(fault: TotallerFault) -> Refusal {
        fault.refusal()
    }
}

impl From<PlaceFault> for TotallerFault {
    ghost from_gives = { λ e r. r ≡ Place e };

    fn from(fault: PlaceFault) -> TotallerFault {
        TotallerFault::Place(fault)
    }
}
