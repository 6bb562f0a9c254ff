// The clauses of an adder network.
ghost use Rattle.std.specs.Prelude.{◌≡◌, ◌+◌, ◌≤◌, ◌++◌, map, length, slice_index};
ghost use Rattle.std.specs.Result.{result_err};
ghost use Rattle.formulas.specs.Numbered.{plain};
ghost use Rattle.places.specs.Written.{Writes};
ghost use Rattle.totals.specs.Adders.{adders, close, closing, with_bit};
ghost use Rattle.totals.specs.Numbers.{line_of};
ghost use Rattle.totallers.specs.Writing.{sum_clauses};
ghost use Rattle.adder_network.specs.Variables.{Fitting, Lined, listed, number_of, numbers};

use crate::adder::{write_clauses, write_line};
use crate::bit::Bit;
use crate::carries::{Carries, Line};
use crate::lines::LINES;
use crate::variable::Variable;
use arrayvec::ArrayVec;
use places::{Place, PlaceFault};
use totallers::Sum;

// The network of a sum whose items can be literals, and whose fresh numbers fit.
#[derive(Clone, Copy)]
pub(crate) struct Network<'a> {
    pub(crate) sum: Sum<'a>,
    ghost fitting: { Fitting sum.variables.now sum.weights.now sum.first },
    ghost some: { 1 ≤ length sum.variables.now },
}

impl Network<'_> {
    // Writes the adders, and then that their total is the target.
    pub(crate) fn write<P: Place>(&self, place: &mut P) -> Result<(), PlaceFault>
        ensures { Writes P.Place (sum_clauses adders self.now.sum.variables.now self.now.sum.weights.now self.now.sum.target self.now.sum.first) place.old place.new (result_err result) }
    {
        let bits = self.write_lines(place)?;
        write_closing(
            Variable {
                number: self.sum.variables[0],
            },
            self.sum.target,
            bits.as_slice(),
            place,
        )
    }

    // Writes the adders of all lines, and answers what is left of each line.
    fn write_lines<P: Place>(
        &self,
        place: &mut P,
    ) -> Result<ArrayVec<Option<Variable>, LINES>, PlaceFault>
        ensures { Lined P.Place self.now.sum.variables.now self.now.sum.weights.now self.now.sum.first place.old place.new result }
    {
        let mut bits = ArrayVec::new();
        let mut line = Line::new();
        let mut carries = Carries {
            below: self.sum.first,
            count: 0,
        };
        for index in 0..LINES {
            self.fill(&mut line, Bit { index }, carries);
            let count = line.len() as u32 / 2;
            bits.push(write_line(&mut line, carries.next(), place)?);
            carries = Carries {
                below: carries.next(),
                count,
            };
        }
        Ok(bits)
    }

    // Sets up the line of this bit: the variables of the items whose weight has it, and the carries of the line below.
    fn fill(&self, line: &mut Line, bit: Bit, carries: Carries)
        ensures { numbers line.new.items ≡ line_of self.now.sum.variables.now self.now.sum.weights.now bit.index carries.below carries.count }
    {
        line.clear();
        for (index, weight) in self.sum.weights.iter().enumerate() {
            if bit.is_in(*weight as u32) {
                line.push(Variable {
                    number: self.sum.variables[index],
                });
            }
        }
        carries.push_to(line);
    }
}

// The total is the target, bit by bit.
fn write_closing<P: Place>(
    item: Variable,
    target: u32,
    bits: &[Option<Variable>],
    place: &mut P,
) -> Result<(), PlaceFault>
    requires { length bits.now ≤ 11 }
    ensures { Writes P.Place (plain (closing item.number 0 target (map listed (map number_of bits.now)))) place.old place.new (result_err result) }
{
    for (index, bit) in bits.iter().enumerate() {
        write_bit(item, Bit { index }.is_in(target), *bit, place)?;
    }
    Ok(())
}

// The line's bit is the target's. A line without one has the bit 0.
fn write_bit<P: Place>(
    item: Variable,
    wanted: bool,
    bit: Option<Variable>,
    place: &mut P,
) -> Result<(), PlaceFault>
    ensures { Writes P.Place (plain (close item.number wanted (listed (number_of bit)))) place.old place.new (result_err result) }
{
    match (bit, wanted) {
        (Some(variable), true) => write_clauses(&[[variable.number as i32]], place),
        (Some(variable), false) => write_clauses(&[[-(variable.number as i32)]], place),
        (None, true) => write_clauses(&[[item.number as i32], [-(item.number as i32)]], place),
        (None, false) => Ok(()),
    }
}
