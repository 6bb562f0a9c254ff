ghost use Rattle.std.specs.Prelude.{List, ◌∷◌};
ghost use Rattle.meanings.specs.Kind.{Kind as Meaning};
ghost use Rattle.meanings.specs.Four.{Absent, Usable, find};
ghost use Rattle.kinds.specs.Answers.{SetJudged, SetTested, SetWritten};
ghost use Rattle.meanings.proofs.Sets.{usable_with};

use crate::kind::Kind;
use boards::Board;
use parts::{KindFault, Part};
use places::Place;
use totallers::Totaller;

// A set of kinds. It finds a kind by its number, and answers nothing where it has none.
pub trait Kinds {
    ghost meanings: { List Meaning };

    fn test(number: u8, board: &Board, part: &Part<'_>) -> Option<Result<(), KindFault>>
        ensures { SetTested (find number meanings) board.now part.now.total part.now.body.now result };

    fn write<T: Totaller, P: Place>(
        number: u8,
        board: &Board,
        part: &Part<'_>,
        first: u32,
        place: &mut P,
    ) -> Option<Result<u32, KindFault>>
        ensures { SetWritten (find number meanings) T.Totaller.meaning P.Place board.now part.now.total part.now.body.now first place.old place.new result };

    fn judge(
        number: u8,
        board: &Board,
        part: &Part<'_>,
        grid: &[u8],
    ) -> Option<Result<bool, KindFault>>
        ensures { SetJudged (find number meanings) board.now part.now.total part.now.body.now grid.now result };

    ghost usable: { Usable meanings };
}

// A kind whose number is new to a set.
pub trait NewTo<S: Kinds>: Kind {
    ghost absent: { Absent Self.Kind.meaning.number S.Kinds.meanings };
}

// A set with one kind more. Its three functions ask the same `if`: one that took both sides as closures is no plainer.
pub struct With<K, S>(K, S);

impl<S: Kinds, K: NewTo<S>> Kinds for With<K, S> {
    ghost meanings = { K.Kind.meaning ∷ S.Kinds.meanings };

    ghost usable = { usable_with K.Kind.meaning S.Kinds.meanings K.Kind.lawful K.NewTo.absent S.Kinds.usable };

    fn test(number: u8, board: &Board, part: &Part<'_>) -> Option<Result<(), KindFault>> {
        if number == K::NUMBER {
            Some(K::test(board, part))
        } else {
            S::test(number, board, part)
        }
    }

    fn write<T: Totaller, P: Place>(
        number: u8,
        board: &Board,
        part: &Part<'_>,
        first: u32,
        place: &mut P,
    ) -> Option<Result<u32, KindFault>> {
        if number == K::NUMBER {
            Some(K::write::<T, P>(board, part, first, place))
        } else {
            S::write::<T, P>(number, board, part, first, place)
        }
    }

    fn judge(
        number: u8,
        board: &Board,
        part: &Part<'_>,
        grid: &[u8],
    ) -> Option<Result<bool, KindFault>> {
        if number == K::NUMBER {
            Some(K::judge(board, part, grid))
        } else {
            S::judge(number, board, part, grid)
        }
    }
}
