ghost use Rattle.std.specs.Prelude.{◌≡◌, ℕ};
ghost use Rattle.totals.specs.Totaller.{Lawful, Totaller as Meaning};
ghost use Rattle.totallers.specs.Writing.{Ready, Totalled, taken_count};

use crate::fault::TotallerFault;
use crate::sum::Sum;
use places::Place;

// A way to write a sum. Its meaning is fixed by weights and target alone, and each keeps the law of a totaller.
pub trait Totaller {
    // The greatest number of items.
    const MOST: usize;

    ghost MOST: { ℕ };

    ghost meaning: { Meaning };

    // Whether it takes so many items with this target.
    fn takes(items: usize, target: u32) -> bool
        ensures { result ≡ meaning.takes items target };

    // How many variables are fresh, or nothing where it does not take so many items with this target.
    fn fresh_count(weights: &[u8], target: u32) -> Option<u32>
        ensures { result ≡ taken_count meaning weights.now target };

    // Writes the clauses at the place's end, and answers how many variables are fresh. Each totaller asks `ready` first; a
    // provided method around what follows would need one for the rest, public with the trait, that requires a ready sum.
    fn write<P: Place>(sum: &Sum<'_>, place: &mut P) -> Result<u32, TotallerFault>
        ensures { Totalled meaning P.Place sum.now.variables.now sum.now.weights.now sum.now.target sum.now.first place.old place.new result };

    // How many variables are fresh, or what is wrong before the first clause.
    fn ready(sum: &Sum<'_>) -> Result<u32, TotallerFault>
        ensures { Ready meaning sum.now.variables.now sum.now.weights.now sum.now.target sum.now.first result }
    {
        sum.check_items()?;
        let items = sum.weights.len();
        let fresh = Self::fresh_count(sum.weights, sum.target).ok_or(TotallerFault::NotTaken {
            items,
        })?;
        sum.check_fresh(fresh)?;
        Ok(fresh)
    }

    // The greatest number of items is the meaning's.
    ghost limited: { MOST ≡ meaning.most };

    ghost lawful: { Lawful meaning };
}
