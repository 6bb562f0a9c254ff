// The clauses of running totals.
ghost use Rattle.std.specs.Prelude.{◌≡◌, ◌+◌, ◌*◌, ◌<◌, ◌≤◌, true, [], ◌∷◌, length};
ghost use Rattle.std.specs.List.{range_with_len, flat_map};
ghost use Rattle.std.specs.Result.{result_err};
ghost use Rattle.formulas.specs.Clause.{usable};
ghost use Rattle.formulas.specs.Numbered.{numbered};
ghost use Rattle.places.specs.Written.{Writes};
ghost use Rattle.totals.specs.Running.{first_row, no_other_sum, rows, running, step};
ghost use Rattle.totallers.specs.Writing.{sum_clauses};
ghost use Rattle.running_totals.specs.Room.{Room, numbers};

use crate::running_step::Step;
use places::{Place, PlaceFault};
use totallers::Sum;

// The table of a sum goes up to its target, and its variables begin at the first fresh number.
#[derive(Clone, Copy)]
pub(crate) struct Table<'a> {
    pub(crate) sum: Sum<'a>,
    // There is room for its numbers, and its items can be literals.
    ghost room: { Room sum },
}

impl Table<'_> {
    // Writes all clauses: of no item, of each item more, and that all items add to the target.
    pub(crate) fn write<P: Place>(&self, place: &mut P) -> Result<(), PlaceFault>
        ensures { Writes P.Place (sum_clauses running self.now.sum.variables.now self.now.sum.weights.now self.now.sum.target self.now.sum.first) place.old place.new (result_err result) }
    {
        self.write_first_row(place)?;
        self.write_rows(place)?;
        let all = self.total(self.sum.weights.len(), self.sum.target);
        write_unit(all as i32, place)
    }

    // The variable which says that so many items add to the sum.
    pub(crate) fn total(&self, items: usize, sum: u32) -> u32
        requires items { items ≤ length self.now.sum.variables.now }
        requires sum { sum ≤ self.now.sum.target }
        ensures is { result ≡ self.now.sum.first + (items * (self.now.sum.target + 1) + sum) }
        ensures low { 1 ≤ result }
        ensures high { result ≤ 65535 }
    {
        self.sum.first + (items as u32 * (self.sum.target + 1) + sum)
    }

    // No item: the sum is 0, and no other.
    fn write_first_row<P: Place>(&self, place: &mut P) -> Result<(), PlaceFault>
        ensures { Writes P.Place (numbered (numbers self.now.sum) (first_row self.now.sum.target)) place.old place.new (result_err result) }
    {
        write_unit(self.total(0, 0) as i32, place)?;
        self.write_no_other_sum(place)
    }

    fn write_no_other_sum<P: Place>(&self, place: &mut P) -> Result<(), PlaceFault>
        ensures { Writes P.Place (numbered (numbers self.now.sum) (no_other_sum self.now.sum.target)) place.old place.new (result_err result) }
    {
        for sum in 1..=self.sum.target {
            write_unit(-(self.total(0, sum) as i32), place)?;
        }
        Ok(())
    }

    // The rows of all items.
    fn write_rows<P: Place>(&self, place: &mut P) -> Result<(), PlaceFault>
        ensures { Writes P.Place (numbered (numbers self.now.sum) (rows self.now.sum.weights.now self.now.sum.target)) place.old place.new (result_err result) }
    {
        for (index, weight) in self.sum.weights.iter().enumerate() {
            self.write_row(index, *weight, place)?;
        }
        Ok(())
    }

    // All sums, once an item more is looked at.
    fn write_row<P: Place>(&self, index: usize, weight: u8, place: &mut P) -> Result<(), PlaceFault>
        requires { index < length self.now.sum.variables.now }
        ensures { Writes P.Place (numbered (numbers self.now.sum) (flat_map (step self.now.sum.target index weight) (range_with_len 0 (self.now.sum.target + 1)))) place.old place.new (result_err result) }
    {
        for sum in 0..=self.sum.target {
            let step = Step {
                table: *self,
                index,
                weight,
                sum,
            };
            step.write(place)?;
        }
        Ok(())
    }
}

// The literal is true.
fn write_unit<P: Place>(literal: i32, place: &mut P) -> Result<(), PlaceFault>
    requires { usable literal ≡ true }
    ensures { Writes P.Place ((literal ∷ []) ∷ []) place.old place.new (result_err result) }
{
    place.put(&[literal])
}
