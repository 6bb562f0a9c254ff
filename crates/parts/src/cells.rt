// Tests of a part's cells: each goes over the whole body.
ghost use Rattle.std.specs.Prelude.{◌≡◌};
ghost use Rattle.std.specs.Result.{result_err};
ghost use Rattle.parts.specs.Tests.{apart_fault, cell_fault, first_number_fault, length_fault, near, repeat_fault, touch};

use crate::fault::KindFault;
use boards::Board;

// The body has from `least` to `most` entries.
pub fn check_length(body: &[u8], least: usize, most: usize) -> Result<(), KindFault>
    ensures { result_err result ≡ length_fault least most body.now }
{
    if (least..=most).contains(&body.len()) {
        Ok(())
    } else {
        Err(KindFault::BodyLength)
    }
}

// Each cell is on the board.
pub fn check_cells(board: &Board, body: &[u8]) -> Result<(), KindFault>
    ensures { result_err result ≡ cell_fault board.now body.now }
{
    body.iter()
        .position(|cell| *cell as usize >= board.cells())
        .map_or(Ok(()), |index| Err(KindFault::Cell { index }))
}

// No cell stands twice.
pub fn check_distinct(body: &[u8]) -> Result<(), KindFault>
    ensures { result_err result ≡ repeat_fault body.now }
{
    body.iter()
        .enumerate()
        .position(|(index, cell)| body[..index].contains(cell))
        .map_or(Ok(()), |index| Err(KindFault::Repeated { index }))
}

// Each cell but the first touches the one before it.
pub fn check_touching(board: &Board, body: &[u8]) -> Result<(), KindFault>
    ensures { result_err result ≡ apart_fault board.now body.now }
{
    body.windows(2)
        .position(|pair| !touches(board, pair[0], pair[1]))
        .map_or(Ok(()), |index| Err(KindFault::Apart { index: index + 1 }))
}

// Whether two cells touch by a side or a corner: neither their rows nor their columns lie more than one apart.
pub fn touches(board: &Board, first: u8, second: u8) -> bool
    ensures { result ≡ touch board.now first second }
{
    let side = board.side();
    let (first, second) = (first as usize, second as usize);
    is_near(first / side, second / side) && is_near(first % side, second % side)
}

fn is_near(first: usize, second: usize) -> bool
    ensures { result ≡ near first second }
{
    first.abs_diff(second) <= 1
}

// The first fresh number is not a cell variable's.
pub fn check_first(board: &Board, first: u32) -> Result<(), KindFault>
    ensures { result_err result ≡ first_number_fault board.now first }
{
    if first as usize <= board.cells() * board.side() {
        Err(KindFault::FirstNumber)
    } else {
        Ok(())
    }
}
