ghost use Rattle.std.specs.Prelude.{refl};
ghost use Rattle.meanings.specs.Arrow.{arrow};
ghost use Rattle.meanings.proofs.Arrows.{arrow_lawful};

use crate::fill::{push_cells, push_circle};
use crate::items::Items;
use crate::judging::sum_digits;
use boards::Board;
use kinds::Kind;
use parts::{
    KindFault, Part, check_cells, check_distinct, check_first, check_grid, check_length,
    check_touching,
};
use places::Place;
use totallers::{Sum, Totaller};

pub struct Arrow;

impl Kind for Arrow {
    const NUMBER: u8 = 4;

    ghost NUMBER = { 4 };

    ghost meaning = { arrow };

    ghost numbered = { refl };

    ghost lawful = { arrow_lawful };

    // As for a thermometer, but for the length: each kind lists its tests, and one function for both is no shorter.
    fn test(board: &Board, part: &Part<'_>) -> Result<(), KindFault> {
        check_length(part.body, 2, board.side() + 1)?;
        check_cells(board, part.body)?;
        check_distinct(part.body)?;
        check_touching(board, part.body)
    }

    fn write<T: Totaller, P: Place>(
        board: &Board,
        part: &Part<'_>,
        first: u32,
        place: &mut P,
    ) -> Result<u32, KindFault> {
        Self::test(board, part)?;
        check_first(board, first)?;
        let mut items = Items::none();
        push_cells(&mut items, board, &part.body[1..]);
        push_circle(&mut items, board, part.body[0]);
        let variables = items.variables.as_slice();
        let weights = items.weights.as_slice();
        let target = board.side() as u32;
        let sum = Sum {
            variables,
            weights,
            target,
            first,
        };
        let fresh = T::write(&sum, place)?;
        Ok(fresh)
    }

    #[tactic(auto, using(crate::proofs::Judgements::digit_sum_is))]
    fn judge(board: &Board, part: &Part<'_>, grid: &[u8]) -> Result<bool, KindFault> {
        Self::test(board, part)?;
        check_grid(board, grid)?;
        Ok(sum_digits(&part.body[1..], grid) == grid[part.body[0] as usize] as u32)
    }
}
