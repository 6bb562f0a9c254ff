ghost use Rattle.std.specs.Prelude.{◌≡◌, refl};
ghost use Rattle.std.specs.Result.{result_err};
ghost use Rattle.meanings.specs.Cage.{cage, total_fault};
ghost use Rattle.meanings.proofs.Cages.{cage_lawful};

use crate::fill::push_cells;
use crate::items::Items;
use crate::judging::{digits_differ, sum_digits};
use boards::{Board, write_no_repeat};
use kinds::Kind;
use parts::{KindFault, Part, check_cells, check_distinct, check_first, check_grid, check_length};
use places::Place;
use totallers::{Sum, Totaller};

pub struct Cage;

// The total lies from 1 to the sum of all digits.
fn check_total(board: &Board, total: u32) -> Result<(), KindFault>
    ensures { result_err result ≡ total_fault board.now total }
{
    let side = board.side() as u32;
    if 1 <= total && total <= side * (side + 1) / 2 {
        Ok(())
    } else {
        Err(KindFault::Total)
    }
}

impl Kind for Cage {
    const NUMBER: u8 = 2;

    ghost NUMBER = { 2 };

    ghost meaning = { cage };

    ghost numbered = { refl };

    ghost lawful = { cage_lawful };

    fn test(board: &Board, part: &Part<'_>) -> Result<(), KindFault> {
        check_length(part.body, 1, board.side())?;
        check_cells(board, part.body)?;
        check_distinct(part.body)?;
        check_total(board, part.total)
    }

    fn write<T: Totaller, P: Place>(
        board: &Board,
        part: &Part<'_>,
        first: u32,
        place: &mut P,
    ) -> Result<u32, KindFault> {
        Self::test(board, part)?;
        check_first(board, first)?;
        let mut items = Items::none();
        push_cells(&mut items, board, part.body);
        let variables = items.variables.as_slice();
        let weights = items.weights.as_slice();
        let sum = Sum {
            variables,
            weights,
            target: part.total,
            first,
        };
        T::ready(&sum)?;
        write_no_repeat(board, part.body, place)?;
        let fresh = T::write(&sum, place)?;
        Ok(fresh)
    }

    #[tactic(auto, using(crate::proofs::Judgements::digit_sum_is))]
    fn judge(board: &Board, part: &Part<'_>, grid: &[u8]) -> Result<bool, KindFault> {
        Self::test(board, part)?;
        check_grid(board, grid)?;
        Ok(digits_differ(part.body, grid) && sum_digits(part.body, grid) == part.total)
    }
}
