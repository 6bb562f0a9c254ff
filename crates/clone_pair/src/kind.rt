ghost use Rattle.std.specs.Prelude.{refl};
ghost use Rattle.clone_pair.specs.Meaning.{clone_pair};
ghost use Rattle.clone_pair.specs.Clones.{clone_pair_lawful};
ghost use Rattle.std.proofs.Common.{rules};

use crate::same::write_same;
use boards::Board;
use four_kinds::FourKinds;
use kinds::{Kind, Kinds, NewTo};
use parts::{KindFault, Part, check_cells, check_distinct, check_first, check_grid, check_length};
use places::Place;
use totallers::Totaller;

pub struct ClonePair;

impl Kind for ClonePair {
    const NUMBER: u8 = 9;

    ghost NUMBER = { 9 };

    ghost meaning = { clone_pair };

    ghost numbered = { refl };

    ghost lawful = { clone_pair_lawful };

    fn test(board: &Board, part: &Part<'_>) -> Result<(), KindFault> {
        check_length(part.body, 2, 2)?;
        check_cells(board, part.body)?;
        check_distinct(part.body)
    }

    fn write<T: Totaller, P: Place>(
        board: &Board,
        part: &Part<'_>,
        first: u32,
        place: &mut P,
    ) -> Result<u32, KindFault> {
        Self::test(board, part)?;
        check_first(board, first)?;
        write_same(board, part.body[0], part.body[1], place)?;
        Ok(0)
    }

    fn judge(board: &Board, part: &Part<'_>, grid: &[u8]) -> Result<bool, KindFault> {
        Self::test(board, part)?;
        check_grid(board, grid)?;
        Ok(grid[part.body[0] as usize] == grid[part.body[1] as usize])
    }
}

// The four kinds have the numbers 1 to 4.
impl NewTo<FourKinds> for ClonePair {
    ghost absent = { Prim.search rules };
}
