// The carries that come to a line.
ghost use Rattle.std.specs.Prelude.{◌≡◌, ◌+◌, ◌*◌, ◌≤◌, ◌++◌};
ghost use Rattle.arrayvec.specs.ArrayVec.{array_vec_len};
ghost use Rattle.totals.specs.Numbers.{seconds};
ghost use Rattle.adder_network.specs.Variables.{numbers};

use crate::variable::Variable;
use arrayvec::ArrayVec;

// The variables of a line, and behind them the sums of its adders: at most 96 items and 96 carries come to a line, and
// then a sum for every two variables.
pub(crate) type Line = ArrayVec<Variable, 288>;

// The carries of the line below, whose adders have the fresh numbers from `below` on, two for each.
#[derive(Clone, Copy)]
pub(crate) struct Carries {
    pub(crate) below: u32,
    pub(crate) count: u32,
    ghost few: { count ≤ 96 },
    ghost room: { 1 ≤ count → below + 2 * count ≤ 65536 },
}

impl Carries {
    // The next fresh number.
    pub(crate) fn next(self) -> u32
        ensures { result ≡ self.below + 2 * self.count }
    {
        self.below + 2 * self.count
    }

    // Puts the carries behind what stands in the line.
    pub(crate) fn push_to(self, line: &mut Line)
        requires { array_vec_len line.old + self.count ≤ 288 }
        ensures { numbers line.new.items ≡ numbers line.old.items ++ seconds (self.below + 1) self.count }
    {
        // A range with `step_by(2)` is no plainer: where there is no carry, its first number may not fit.
        for index in 0..self.count {
            line.push(Variable {
                number: self.below + 1 + 2 * index,
            });
        }
    }
}
