ghost use Rattle.std.specs.Prelude.{refl};
ghost use Rattle.meanings.specs.Givens.{givens};
ghost use Rattle.meanings.proofs.Givens.{givens_lawful};

use crate::characters::{check_characters, shows, write_digits};
use boards::Board;
use kinds::Kind;
use parts::{KindFault, Part, check_first, check_grid, check_length};
use places::Place;
use totallers::Totaller;

pub struct Givens;

impl Kind for Givens {
    const NUMBER: u8 = 1;

    ghost NUMBER = { 1 };

    ghost meaning = { givens };

    ghost numbered = { refl };

    ghost lawful = { givens_lawful };

    fn test(board: &Board, part: &Part<'_>) -> Result<(), KindFault> {
        let cells = board.cells();
        check_length(part.body, cells, cells)?;
        check_characters(board, part.body)
    }

    fn write<T: Totaller, P: Place>(
        board: &Board,
        part: &Part<'_>,
        first: u32,
        place: &mut P,
    ) -> Result<u32, KindFault> {
        Self::test(board, part)?;
        check_first(board, first)?;
        write_digits(board, part.body, place)?;
        Ok(0)
    }

    #[tactic(auto, using(crate::proofs::Stated::shows_is))]
    fn judge(board: &Board, part: &Part<'_>, grid: &[u8]) -> Result<bool, KindFault> {
        Self::test(board, part)?;
        check_grid(board, grid)?;
        Ok(shows(part.body, grid))
    }
}
