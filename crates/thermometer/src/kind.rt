ghost use Rattle.std.specs.Prelude.{refl};
ghost use Rattle.meanings.specs.Thermometer.{thermometer};
ghost use Rattle.meanings.proofs.Thermometers.{thermometer_lawful};

use crate::steps::{rises, write_steps};
use boards::Board;
use kinds::Kind;
use parts::{
    KindFault, Part, check_cells, check_distinct, check_first, check_grid, check_length,
    check_touching,
};
use places::Place;
use totallers::Totaller;

pub struct Thermometer;

impl Kind for Thermometer {
    const NUMBER: u8 = 3;

    ghost NUMBER = { 3 };

    ghost meaning = { thermometer };

    ghost numbered = { refl };

    ghost lawful = { thermometer_lawful };

    fn test(board: &Board, part: &Part<'_>) -> Result<(), KindFault> {
        check_length(part.body, 2, board.side())?;
        check_cells(board, part.body)?;
        check_distinct(part.body)?;
        check_touching(board, part.body)
    }

    fn write<T: Totaller, P: Place>(
        board: &Board,
        part: &Part<'_>,
        first: u32,
        place: &mut P,
    ) -> Result<u32, KindFault> {
        Self::test(board, part)?;
        check_first(board, first)?;
        write_steps(board, part.body, place)?;
        Ok(0)
    }

    fn judge(board: &Board, part: &Part<'_>, grid: &[u8]) -> Result<bool, KindFault> {
        Self::test(board, part)?;
        check_grid(board, grid)?;
        Ok(rises(part.body, grid))
    }
}
