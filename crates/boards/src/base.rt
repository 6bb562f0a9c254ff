// The clauses of an empty board, and how they are put into a place.
ghost use Rattle.std.specs.Result.{result_err};
ghost use Rattle.places.specs.Written.{Writes};
ghost use Rattle.boards.specs.Base.{base, clauses_of};

use crate::board::Board;
use crate::cells::{write_no_repeat, write_no_two_digits, write_some_digit};
use places::{Place, PlaceFault};

// Writes what each draft says: each cell has one digit, and no row, column or box repeats one. Rows, columns and boxes go
// by the numbers that a broken rule is told by.
pub fn write_base<P: Place>(board: &Board, place: &mut P) -> Result<(), PlaceFault>
    ensures { Writes P.Place (clauses_of board.now (base board.now)) place.old place.new (result_err result) }
{
    for cell in 0..board.cells() {
        write_some_digit(board, cell as u8, place)?;
    }
    for cell in 0..board.cells() {
        write_no_two_digits(board, cell as u8, place)?;
    }
    for number in 0..3 * board.side() {
        if let Some(line) = board.line(number) {
            write_no_repeat(board, line.cells(), place)?;
        }
    }
    Ok(())
}
