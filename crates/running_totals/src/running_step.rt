// One sum of the table, once an item more is looked at.
ghost use Rattle.std.specs.Prelude.{◌≡◌, ◌<◌, ◌≤◌, true, [], ◌∷◌, length, pos, neg_ℤ};
ghost use Rattle.std.specs.Result.{result_err};
ghost use Rattle.formulas.specs.Clause.{usable};
ghost use Rattle.formulas.specs.Numbered.{numbered};
ghost use Rattle.places.specs.Written.{Writes};
ghost use Rattle.totals.specs.Running.{step, with_item, without_item};
ghost use Rattle.running_totals.specs.Room.{numbers};

use crate::running_table::Table;
use places::{Place, PlaceFault};

// The item that is looked at, with its weight, and a sum of the table.
#[derive(Clone, Copy)]
pub(crate) struct Step<'a> {
    pub(crate) table: Table<'a>,
    pub(crate) index: usize,
    pub(crate) weight: u8,
    pub(crate) sum: u32,
    ghost item: { index < length table.sum.variables.now },
    ghost within: { sum ≤ table.sum.target },
}

impl Step<'_> {
    // Writes the clauses of the step: with the item, and without it.
    pub(crate) fn write<P: Place>(&self, place: &mut P) -> Result<(), PlaceFault>
        ensures { Writes P.Place (numbered (numbers self.now.table.sum) (step self.now.table.sum.target self.now.index self.now.weight self.now.sum)) place.old place.new (result_err result) }
    {
        self.write_with_item(place)?;
        self.write_without_item(place)
    }

    // With the item, the sum is reached from the sum without its weight.
    fn write_with_item<P: Place>(&self, place: &mut P) -> Result<(), PlaceFault>
        ensures { Writes P.Place (numbered (numbers self.now.table.sum) (with_item self.now.table.sum.target self.now.index self.now.weight self.now.sum)) place.old place.new (result_err result) }
    {
        let variable = self.table.sum.variables[self.index] as i32;
        let reached = self.table.total(self.index + 1, self.sum);
        let weight = self.weight as u32;
        if self.sum >= weight {
            let before = self.table.total(self.index, self.sum - weight);
            write_same_unless(-variable, reached, before, place)
        } else {
            place.put(&[-variable, -(reached as i32)])
        }
    }

    // Without the item, the sum is reached from itself.
    fn write_without_item<P: Place>(&self, place: &mut P) -> Result<(), PlaceFault>
        ensures { Writes P.Place (numbered (numbers self.now.table.sum) (without_item self.now.table.sum.target self.now.index self.now.sum)) place.old place.new (result_err result) }
    {
        let variable = self.table.sum.variables[self.index] as i32;
        let reached = self.table.total(self.index + 1, self.sum);
        let before = self.table.total(self.index, self.sum);
        write_same_unless(variable, reached, before, place)
    }
}

// Unless the literal is true, the two variables are alike.
fn write_same_unless<P: Place>(
    unless: i32,
    one: u32,
    other: u32,
    place: &mut P,
) -> Result<(), PlaceFault>
    requires unless { usable unless ≡ true }
    requires one { (1 ≤ one) × (one ≤ 65535) }
    requires other { (1 ≤ other) × (other ≤ 65535) }
    ensures { Writes P.Place ((unless ∷ neg_ℤ (pos one) ∷ pos other ∷ []) ∷ (unless ∷ pos one ∷ neg_ℤ (pos other) ∷ []) ∷ []) place.old place.new (result_err result) }
{
    let (one, other) = (one as i32, other as i32);
    place.put(&[unless, -one, other])?;
    place.put(&[unless, one, -other])
}
