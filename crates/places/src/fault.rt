ghost use Rattle.std.specs.Prelude.{◌≡◌};
ghost use Rattle.places.specs.Fault.{refusal};

use std::fmt;

// The layer that was the first to know of a fault.
#[derive(Clone, Copy, PartialEq, Eq, Debug)]
pub enum Layer {
    Place,
    Totaller,
    Kind,
    Draft,
    Reader,
}

// A fault as it is reported: its number, the layer that raised it, and the position that offends.
#[derive(Clone, Copy, PartialEq, Eq, Debug)]
pub struct Refusal {
    pub number: u32,
    pub layer: Layer,
    pub position: usize,
}

impl fmt::Display for Refusal {
    fn fmt<W: fmt::Write>(&self, f: &mut fmt::Formatter<W>) -> fmt::Result {
        let Refusal {
            number,
            layer,
            position,
        } = self;
        write!(f, "number {number}, layer {layer:?}, position {position}")
    }
}

// Why a place refuses a clause.
#[derive(Clone, Copy, PartialEq, Eq, Debug)]
pub enum PlaceFault {
    // The clause has no literal, or more than 16.
    ClauseLength,
    // The literal at `index` is 0, or beyond 65,535 in size; those before it are not.
    Literal { index: usize },
    // The clause does not fit the free space; `held` clauses are in the place.
    NoSpace { held: usize },
}

impl PlaceFault {
    pub fn refusal(self) -> Refusal
        ensures { result ≡ refusal self }
    {
        let (number, position) = match self {
            PlaceFault::ClauseLength => (9, 0),
            PlaceFault::Literal { index } => (9, index),
            PlaceFault::NoSpace { held } => (25, held),
        };
        Refusal {
            number,
            layer: Layer::Place,
            position,
        }
    }
}

impl From<PlaceFault> for Refusal {
    ghost from_gives = { λ e r. r ≡ refusal e };

    fn from(fault: PlaceFault) -> Refusal {
        fault.refusal()
    }
}
