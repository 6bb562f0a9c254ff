// The clauses of adders, and how they take a line down to one variable or none.
ghost use Rattle.std.specs.Prelude.{◌≡◌, ◌+◌, ◌*◌, ◌/◌, ◌≤◌, true, length};
ghost use Rattle.std.specs.Result.{result_err};
ghost use Rattle.formulas.specs.Clause.{every, valid};
ghost use Rattle.formulas.specs.Numbered.{plain};
ghost use Rattle.places.specs.Written.{Writes};
ghost use Rattle.totals.specs.Adders.{full_clauses, half_clauses};
ghost use Rattle.adder_network.specs.Variables.{TakenDown, numbers};

use crate::carries::Line;
use crate::variable::{Outputs, Variable};
use places::{Place, PlaceFault};

// Puts each clause in turn.
pub(crate) fn write_clauses<const N: usize, P: Place>(
    clauses: &[[i32; N]],
    place: &mut P,
) -> Result<(), PlaceFault>
    requires { every valid clauses.now ≡ true }
    ensures { Writes P.Place clauses.now place.old place.new (result_err result) }
{
    for clause in clauses {
        place.put(clause)?;
    }
    Ok(())
}

// A full adder: of three variables, the sum and the carry.
fn write_full_adder<P: Place>(
    a: Variable,
    b: Variable,
    c: Variable,
    outputs: Outputs,
    place: &mut P,
) -> Result<(), PlaceFault>
    ensures { Writes P.Place (plain (full_clauses a.number b.number c.number outputs.sum (outputs.sum + 1))) place.old place.new (result_err result) }
{
    let (a, b, c) = (a.number as i32, b.number as i32, c.number as i32);
    let (s, t) = (outputs.sum as i32, (outputs.sum + 1) as i32);
    write_clauses(
        &[
            [a, b, c, -s],
            [a, -b, -c, -s],
            [-a, b, -c, -s],
            [-a, -b, c, -s],
            [-a, -b, -c, s],
            [-a, b, c, s],
            [a, -b, c, s],
            [a, b, -c, s],
        ],
        place,
    )?;
    write_clauses(
        &[
            [-a, -b, t],
            [-a, -c, t],
            [-b, -c, t],
            [a, b, -t],
            [a, c, -t],
            [b, c, -t],
        ],
        place,
    )
}

// A half adder: of two variables.
fn write_half_adder<P: Place>(
    a: Variable,
    b: Variable,
    outputs: Outputs,
    place: &mut P,
) -> Result<(), PlaceFault>
    ensures { Writes P.Place (plain (half_clauses a.number b.number outputs.sum (outputs.sum + 1))) place.old place.new (result_err result) }
{
    let (a, b, s, t) = (
        a.number as i32,
        b.number as i32,
        outputs.sum as i32,
        (outputs.sum + 1) as i32,
    );
    write_clauses(
        &[
            [a, b, -s],
            [-a, -b, -s],
            [-a, b, s],
            [a, -b, s],
            [-a, -b, t],
        ],
        place,
    )?;
    write_clauses(&[[a, -t], [b, -t]], place)
}

// Takes the line down to one variable or none, and answers it. An adder takes the first three of the variables that still
// stand in the line, or two if there are no more, and its sum comes to the line's end.
// Those that are taken are counted and stay where they are: to take them out would move all the others for each adder.
pub(crate) fn write_line<P: Place>(
    line: &mut Line,
    first: u32,
    place: &mut P,
) -> Result<Option<Variable>, PlaceFault>
    requires few { length line.old.items ≤ 192 }
    requires first { (1 ≤ first) × ((2 ≤ length line.old.items → first + 2 * (length line.old.items / 2) ≤ 65536)) }
    ensures { TakenDown P.Place (numbers line.old.items) first place.old place.new result }
{
    let mut next = first;
    let mut taken = 0;
    loop {
        match &line.as_slice()[taken..] {
            [a, b, c, ..] => {
                write_full_adder(*a, *b, *c, Outputs { sum: next }, place)?;
                taken += 3;
            }
            [a, b] => {
                write_half_adder(*a, *b, Outputs { sum: next }, place)?;
                taken += 2;
            }
            left => return Ok(left.first().copied()),
        }
        line.push(Variable { number: next });
        next += 2;
    }
}
