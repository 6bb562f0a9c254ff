// The adder network as a totaller.
ghost use Rattle.std.specs.Prelude.{refl};
ghost use Rattle.totals.specs.Adders.{adders};
ghost use Rattle.totals.proofs.Network.{adders_lawful};

use crate::lines::count_adders;
use crate::network::Network;
use places::Place;
use totallers::{Sum, Totaller, TotallerFault};

// The greatest target that this totaller takes. Each totaller names its own limits, so the constant stands in each.
const MOST_TARGET: u32 = 63;

pub struct AdderNetwork;

impl Totaller for AdderNetwork {
    const MOST: usize = 96;

    ghost MOST = { 96 };

    ghost limited = { refl };

    ghost meaning = { adders };

    ghost lawful = { adders_lawful };

    fn takes(items: usize, target: u32) -> bool {
        1 <= items && items <= Self::MOST && target <= MOST_TARGET
    }

    fn fresh_count(weights: &[u8], target: u32) -> Option<u32> {
        // Each adder has two: its sum and its carry.
        Self::takes(weights.len(), target).then(|| 2 * count_adders(weights))
    }

    fn write<P: Place>(sum: &Sum<'_>, place: &mut P) -> Result<u32, TotallerFault> {
        let fresh = Self::ready(sum)?;
        Network { sum: *sum }.write(place)?;
        Ok(fresh)
    }
}
