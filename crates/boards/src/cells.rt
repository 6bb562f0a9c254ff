// What is said of one cell, of two cells and of cells that are all to differ, as clauses in a place. The board and the
// place stay two parameters: a struct that lends both would have to promise, at each call, that it still lends the same.
ghost use Rattle.std.specs.Prelude.{◌≡◌, ◌≤◌, [], ◌∷◌, pos};
ghost use Rattle.std.specs.Result.{result_err};
ghost use Rattle.places.specs.Written.{Writes};
ghost use Rattle.boards.specs.Atoms.{at, number};
ghost use Rattle.boards.specs.Base.{clauses_of, differs, no_later_digit, no_repeat, no_two_digits, not_both, not_same, some_digit};

use crate::board::Board;
use arrayvec::ArrayVec;
use places::{Place, PlaceFault};

// That a cell has a digit.
#[derive(Clone, Copy)]
struct Mark {
    cell: u8,
    digit: u8,
    ghost low: { 1 ≤ digit },
    ghost high: { digit ≤ 16 },
}

impl Mark {
    // The variable that says so, as a literal.
    fn literal(self, board: &Board) -> i32
        ensures value { result ≡ pos (number board.now 0 (at self.cell self.digit)) }
        ensures bound { number board.now 0 (at self.cell self.digit) ≤ 4335 }
    {
        board.variable(self.cell, self.digit) as i32
    }
}

// The cell has a digit.
pub(crate) fn write_some_digit<P: Place>(
    board: &Board,
    cell: u8,
    place: &mut P,
) -> Result<(), PlaceFault>
    ensures { Writes P.Place (clauses_of board.now (some_digit board.now cell ∷ [])) place.old place.new (result_err result) }
{
    let mut clause = ArrayVec::<i32, 16>::new();
    for digit in 1..=board.side() as u8 {
        clause.push(Mark { cell, digit }.literal(board));
    }
    place.put(&clause)
}

// The cell has no two digits.
pub(crate) fn write_no_two_digits<P: Place>(
    board: &Board,
    cell: u8,
    place: &mut P,
) -> Result<(), PlaceFault>
    ensures { Writes P.Place (clauses_of board.now (no_two_digits board.now cell)) place.old place.new (result_err result) }
{
    for digit in 1..=board.side() as u8 {
        write_no_later_digit(board, Mark { cell, digit }, place)?;
    }
    Ok(())
}

// A cell that has the digit has none of the larger ones.
fn write_no_later_digit<P: Place>(
    board: &Board,
    mark: Mark,
    place: &mut P,
) -> Result<(), PlaceFault>
    ensures { Writes P.Place (clauses_of board.now (no_later_digit board.now mark.cell mark.digit)) place.old place.new (result_err result) }
{
    for digit in mark.digit + 1..=board.side() as u8 {
        let later = Mark {
            cell: mark.cell,
            digit,
        };
        write_not_both(board, mark, later, place)?;
    }
    Ok(())
}

// No two of the cells have the same digit.
pub fn write_no_repeat<P: Place>(
    board: &Board,
    cells: &[u8],
    place: &mut P,
) -> Result<(), PlaceFault>
    ensures { Writes P.Place (clauses_of board.now (no_repeat board.now cells.now)) place.old place.new (result_err result) }
{
    let mut rest = cells;
    while let Some((cell, others)) = rest.split_first() {
        write_differs(board, *cell, others, place)?;
        rest = others;
    }
    Ok(())
}

// The cell has the same digit as none of the others.
fn write_differs<P: Place>(
    board: &Board,
    cell: u8,
    others: &[u8],
    place: &mut P,
) -> Result<(), PlaceFault>
    ensures { Writes P.Place (clauses_of board.now (differs board.now cell others.now)) place.old place.new (result_err result) }
{
    for other in others {
        write_not_same(board, cell, *other, place)?;
    }
    Ok(())
}

// The two cells do not have the same digit.
fn write_not_same<P: Place>(
    board: &Board,
    first: u8,
    second: u8,
    place: &mut P,
) -> Result<(), PlaceFault>
    ensures { Writes P.Place (clauses_of board.now (not_same board.now (first, second))) place.old place.new (result_err result) }
{
    for digit in 1..=board.side() as u8 {
        let first = Mark { cell: first, digit };
        let second = Mark {
            cell: second,
            digit,
        };
        write_not_both(board, first, second, place)?;
    }
    Ok(())
}

// The two are not both so.
fn write_not_both<P: Place>(
    board: &Board,
    first: Mark,
    second: Mark,
    place: &mut P,
) -> Result<(), PlaceFault>
    ensures { Writes P.Place (clauses_of board.now (not_both (at first.cell first.digit) (at second.cell second.digit) ∷ [])) place.old place.new (result_err result) }
{
    place.put(&[-first.literal(board), -second.literal(board)])
}
