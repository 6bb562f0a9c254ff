// The steps from each cell to the next.
ghost use Rattle.std.specs.Prelude.{ℕ, ◌≡◌, ◌<◌, ◌≤◌, map, length};
ghost use Rattle.std.specs.List.{range_with_len, AllByRecursion as Each};
ghost use Rattle.std.specs.Result.{result_err};
ghost use Rattle.places.specs.Written.{Writes};
ghost use Rattle.boards.specs.Atoms.{at};
ghost use Rattle.boards.specs.Base.{not_both};
ghost use Rattle.kinds.specs.Answers.{clauses_from};
ghost use Rattle.meanings.specs.Thermometer as meaning;

use boards::Board;
use places::{Place, PlaceFault};

// Whether the grid's digits rise over the cells.
pub(crate) fn rises(cells: &[u8], grid: &[u8]) -> bool
    requires { Each (λ c. c < length grid.now) cells.now }
    ensures { result ≡ meaning.rises grid.now cells.now }
{
    for pair in cells.windows(2) {
        if grid[pair[0] as usize] >= grid[pair[1] as usize] {
            return false;
        }
    }
    true
}

// Each cell has a smaller digit than the next. There are no fresh variables, so it does not matter where these begin.
pub(crate) fn write_steps<P: Place>(
    board: &Board,
    cells: &[u8],
    place: &mut P,
) -> Result<(), PlaceFault>
    ensures { (f : ℕ) → Writes P.Place (clauses_from board.now f (meaning.rising board.now cells.now)) place.old place.new (result_err result) }
{
    for pair in cells.windows(2) {
        write_below(board, pair[0], pair[1], place)?;
    }
    Ok(())
}

// The lower cell has a smaller digit than the upper.
fn write_below<P: Place>(
    board: &Board,
    lower: u8,
    upper: u8,
    place: &mut P,
) -> Result<(), PlaceFault>
    ensures { (f : ℕ) → Writes P.Place (clauses_from board.now f (meaning.below board.now lower upper)) place.old place.new (result_err result) }
{
    for digit in 1..=board.side() as u8 {
        write_digit_below(board, lower, digit, upper, place)?;
    }
    Ok(())
}

// Where the lower cell has the digit, the upper has no digit up to it.
fn write_digit_below<P: Place>(
    board: &Board,
    lower: u8,
    digit: u8,
    upper: u8,
    place: &mut P,
) -> Result<(), PlaceFault>
    requires { (1 ≤ digit) × (digit ≤ 16) }
    ensures { (f : ℕ) → Writes P.Place (clauses_from board.now f (map (λ e. not_both (at lower digit) (at upper e)) (range_with_len 1 digit))) place.old place.new (result_err result) }
{
    for other in 1..=digit {
        let lower = board.variable(lower, digit) as i32;
        let upper = board.variable(upper, other) as i32;
        place.put(&[-lower, -upper])?;
    }
    Ok(())
}
