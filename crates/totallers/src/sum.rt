// What can be handed to a totaller.
ghost use Rattle.std.specs.Prelude.{◌≡◌};
ghost use Rattle.std.specs.Result.{result_err};
ghost use Rattle.totallers.specs.Writing.{fresh_fault, good_item, items_fault};

use crate::fault::TotallerFault;
use places::LAST_VARIABLE;

const NUMBERS: u64 = 65_536;

const MOST_WEIGHT: u8 = 15;

// A sum to be written: the weights of the true items shall add to the target. The items are two lists, since that they
// are unequal is a refusal of its own.
#[derive(Clone, Copy)]
pub struct Sum<'a> {
    // The variable of each item.
    pub variables: &'a [u32],
    // The weight of each item.
    pub weights: &'a [u8],
    pub target: u32,
    // The first fresh number.
    pub first: u32,
}

impl Sum<'_> {
    // Whether the items are good: as many weights as variables, and each in its range.
    pub fn check_items(&self) -> Result<(), TotallerFault>
        ensures { result_err result ≡ items_fault self.now.variables.now self.now.weights.now self.now.first }
    {
        if self.variables.is_empty() || self.variables.len() != self.weights.len() {
            return Err(TotallerFault::Items);
        }
        let mut items = self.variables.iter().zip(self.weights);
        match items.position(|(variable, weight)| !is_good(*variable, *weight, self.first)) {
            Some(index) => Err(TotallerFault::Item { index }),
            None => Ok(()),
        }
    }

    // Whether so many fresh numbers, from the first on, lie within 65,535.
    pub fn check_fresh(&self, fresh: u32) -> Result<(), TotallerFault>
        ensures { result_err result ≡ fresh_fault self.now.first fresh }
    {
        let end = self.first as u64 + fresh as u64;
        if fresh == 0 || end <= NUMBERS {
            Ok(())
        } else {
            Err(TotallerFault::FreshNumber)
        }
    }
}

fn is_good(variable: u32, weight: u8, first: u32) -> bool
    ensures { result ≡ good_item first variable weight }
{
    1 <= variable
        && variable < first
        && variable <= LAST_VARIABLE
        && 1 <= weight
        && weight <= MOST_WEIGHT
}
