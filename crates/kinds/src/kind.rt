ghost use Rattle.std.specs.Prelude.{◌≡◌, ℕ};
ghost use Rattle.std.specs.Result.{result_err};
ghost use Rattle.meanings.specs.Kind.{Lawful, Kind as Meaning};
ghost use Rattle.kinds.specs.Answers.{Judged, Written};

use boards::Board;
use parts::{KindFault, Part};
use places::Place;
use totallers::Totaller;

// A kind of part. Its meaning is fixed by the board, the total and the body of a part, and, where it writes a sum, by
// the totaller; each kind keeps the law of one. `write` and `judge` of each kind begin alike: a provided method around
// what follows the tests would need one for the rest, public with the trait, that requires a part that was tested.
pub trait Kind {
    // The number by which a draft finds the kind.
    const NUMBER: u8;

    ghost NUMBER: { ℕ };

    ghost meaning: { Meaning };

    // What is wrong with a part.
    fn test(board: &Board, part: &Part<'_>) -> Result<(), KindFault>
        ensures { result_err result ≡ meaning.fault board.now part.now.total part.now.body.now };

    // Writes the part's clauses at the place's end, and answers how many variables are fresh.
    fn write<T: Totaller, P: Place>(
        board: &Board,
        part: &Part<'_>,
        first: u32,
        place: &mut P,
    ) -> Result<u32, KindFault>
        ensures { Written meaning T.Totaller.meaning P.Place board.now part.now.total part.now.body.now first place.old place.new result };

    // Whether the grid keeps the part.
    fn judge(board: &Board, part: &Part<'_>, grid: &[u8]) -> Result<bool, KindFault>
        ensures { Judged meaning board.now part.now.total part.now.body.now grid.now result };

    // The number is that of the meaning.
    ghost numbered: { NUMBER ≡ meaning.number };

    ghost lawful: { Lawful meaning };
}
