ghost use Rattle.std.specs.Prelude.{ℕ};
ghost use Rattle.std.specs.Result.{result_err};
ghost use Rattle.places.specs.Written.{Writes};
ghost use Rattle.kinds.specs.Answers.{clauses_from};
ghost use Rattle.clone_pair.specs.Meaning.{same};

use boards::Board;
use places::{Place, PlaceFault};

// The two cells have the same digit. There are no fresh variables, so it does not matter where these begin.
pub(crate) fn write_same<P: Place>(
    board: &Board,
    one: u8,
    other: u8,
    place: &mut P,
) -> Result<(), PlaceFault>
    ensures { (f : ℕ) → Writes P.Place (clauses_from board.now f (same board.now one other)) place.old place.new (result_err result) }
{
    for digit in 1..=board.side() as u8 {
        let one = board.variable(one, digit) as i32;
        let other = board.variable(other, digit) as i32;
        place.put(&[-one, other])?;
    }
    Ok(())
}
