// Running totals: a fresh variable for each number of items and each sum says that so many items add to that sum.
ghost use Rattle.std.specs.Prelude.{refl};
ghost use Rattle.totals.specs.Running.{running};
ghost use Rattle.totals.proofs.Running.{running_lawful};

use crate::running_table::Table;
use places::Place;
use totallers::{Sum, Totaller, TotallerFault};

// The greatest target that this totaller takes. Each totaller names its own limits, so the constant stands in each.
const MOST_TARGET: u32 = 63;

const MOST_SUMS: usize = 3_000;

pub struct RunningTotals;

impl Totaller for RunningTotals {
    const MOST: usize = 96;

    ghost MOST = { 96 };

    ghost limited = { refl };

    ghost meaning = { running };

    ghost lawful = { running_lawful };

    fn takes(items: usize, target: u32) -> bool {
        1 <= items
            && items <= Self::MOST
            && target <= MOST_TARGET
            && (items + 1) * (target as usize + 1) <= MOST_SUMS
    }

    fn fresh_count(weights: &[u8], target: u32) -> Option<u32> {
        let items = weights.len();
        Self::takes(items, target).then(|| (items as u32 + 1) * (target + 1))
    }

    fn write<P: Place>(sum: &Sum<'_>, place: &mut P) -> Result<u32, TotallerFault> {
        let fresh = Self::ready(sum)?;
        Table { sum: *sum }.write(place)?;
        Ok(fresh)
    }
}
