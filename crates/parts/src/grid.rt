ghost use Rattle.std.specs.Prelude.{◌≡◌};
ghost use Rattle.std.specs.Result.{result_err};
ghost use Rattle.parts.specs.Tests.{digit, grid_fault};

use crate::fault::KindFault;
use boards::Board;

// The grid has a digit of the board for each cell.
pub fn check_grid(board: &Board, grid: &[u8]) -> Result<(), KindFault>
    ensures { result_err result ≡ grid_fault board.now grid.now }
{
    if grid.len() != board.cells() {
        return Err(KindFault::GridLength);
    }
    grid.iter()
        .position(|entry| !is_digit(board, *entry))
        .map_or(Ok(()), |index| Err(KindFault::GridDigit { index }))
}

fn is_digit(board: &Board, entry: u8) -> bool
    ensures { result ≡ digit board.now entry }
{
    (1..=board.side()).contains(&(entry as usize))
}
