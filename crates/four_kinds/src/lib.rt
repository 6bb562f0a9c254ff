// The set of the four kinds that every draft has.
#![tactic(auto)]

ghost use Rattle.std.specs.Prelude.{◌≡◌};
ghost use Rattle.meanings.specs.Four.{four};
ghost use Rattle.meanings.proofs.Sets.{four_usable};

use boards::Board;
use givens::Givens;
use kinds::{Kind, Kinds};
use parts::{KindFault, Part};
use places::Place;
use sum_kinds::{Arrow, Cage};
use thermometer::Thermometer;
use totallers::Totaller;

// Givens are kind 1, cages 2, thermometers 3 and arrows 4. `With` cannot build the set, since a set's law asks for all
// four at once. One `match` for the three questions would be generic over the question as well, with a promise for each.
pub struct FourKinds;

impl Kinds for FourKinds {
    ghost meanings = { four };

    ghost usable = { four_usable };

    fn test(number: u8, board: &Board, part: &Part<'_>) -> Option<Result<(), KindFault>> {
        match number {
            Givens::NUMBER => Some(Givens::test(board, part)),
            Cage::NUMBER => Some(Cage::test(board, part)),
            Thermometer::NUMBER => Some(Thermometer::test(board, part)),
            Arrow::NUMBER => Some(Arrow::test(board, part)),
            _ => None,
        }
    }

    fn write<T: Totaller, P: Place>(
        number: u8,
        board: &Board,
        part: &Part<'_>,
        first: u32,
        place: &mut P,
    ) -> Option<Result<u32, KindFault>> {
        match number {
            Givens::NUMBER => Some(Givens::write::<T, P>(board, part, first, place)),
            Cage::NUMBER => Some(Cage::write::<T, P>(board, part, first, place)),
            Thermometer::NUMBER => Some(Thermometer::write::<T, P>(board, part, first, place)),
            Arrow::NUMBER => Some(Arrow::write::<T, P>(board, part, first, place)),
            _ => None,
        }
    }

    fn judge(
        number: u8,
        board: &Board,
        part: &Part<'_>,
        grid: &[u8],
    ) -> Option<Result<bool, KindFault>> {
        match number {
            Givens::NUMBER => Some(Givens::judge(board, part, grid)),
            Cage::NUMBER => Some(Cage::judge(board, part, grid)),
            Thermometer::NUMBER => Some(Thermometer::judge(board, part, grid)),
            Arrow::NUMBER => Some(Arrow::judge(board, part, grid)),
            _ => None,
        }
    }
}
