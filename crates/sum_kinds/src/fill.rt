// The items of a sum over the digits of cells.
ghost use Rattle.std.specs.Prelude.{◌+◌, ◌-◌, ◌*◌, ◌≤◌, map, length};
ghost use Rattle.std.specs.List.{range_with_len};
ghost use Rattle.arrayvec.specs.ArrayVec.{array_vec_len};
ghost use Rattle.boards.specs.Board.{side};
ghost use Rattle.boards.specs.Atoms.{at, number};
ghost use Rattle.meanings.specs.Sum.{cell_items, cell_weights};
ghost use Rattle.sum_kinds.specs.Items.{Longer};

use crate::items::Items;
use boards::Board;

// Each digit in each cell, which weighs what the digit is.
pub(crate) fn push_cells(items: &mut Items, board: &Board, cells: &[u8])
    requires { array_vec_len items.old.variables + length cells.now * side board.now ≤ 272 }
    ensures { Longer items.old (map (number board.now 0) (cell_items board.now cells.now)) (cell_weights board.now cells.now) items.new }
{
    for cell in cells {
        push_cell(items, board, *cell);
    }
}

fn push_cell(items: &mut Items, board: &Board, cell: u8)
    requires { array_vec_len items.old.variables + side board.now ≤ 272 }
    ensures { Longer items.old (map (number board.now 0) (map (at cell) (range_with_len 1 (side board.now)))) (range_with_len 1 (side board.now)) items.new }
{
    for digit in 1..=board.side() as u8 {
        items.push(board.variable(cell, digit), digit);
    }
}

// The circle's digits but the greatest, each of which weighs what it lacks to the greatest. One function for this and a
// cell would take the last digit and the weights, and is no plainer.
pub(crate) fn push_circle(items: &mut Items, board: &Board, cell: u8)
    requires { array_vec_len items.old.variables + side board.now ≤ 272 }
    ensures { Longer items.old (map (number board.now 0) (map (at cell) (range_with_len 1 (side board.now - 1)))) (map (λ d. side board.now - d) (range_with_len 1 (side board.now - 1))) items.new }
{
    let side = board.side() as u8;
    for digit in 1..side {
        items.push(board.variable(cell, digit), side - digit);
    }
}
