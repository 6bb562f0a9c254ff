use boards::Board;
use clone_pair::ClonePair;
use four_kinds::FourKinds;
use kinds::{Kinds, With};
use parts::{KindFault, Part};
use places::{Place, Refusal};
use running_totals::RunningTotals;
use std::test::Fail;
use word_place::WordPlace;

pub(crate) type Five = With<ClonePair, FourKinds>;

// The board of side 4.
pub(crate) fn small_board() -> Board {
    Board::of_side(4).unwrap()
}

// A part to be offered.
pub(crate) fn part<'a>(total: u32, body: &'a [u8]) -> Part<'a> {
    Part { total, body }
}

// The number and the position of the refusal, where there is one.
pub(crate) fn told<T: Drop>(answer: Option<Result<T, KindFault>>) -> Option<(u32, usize)> {
    match answer {
        Some(Err(fault)) => {
            let refusal = Refusal::from(fault);
            Some((refusal.number, refusal.position))
        }
        _ => None,
    }
}

#[test]
fn a_kind_is_found_by_its_number(rt: HostRuntime) {
    let board = small_board();
    assert_eq!(rt;
        Five::test(1, &board, &part(0, b"1.............04")),
        Some(Ok(()))
    );
    assert_eq!(rt; Five::test(2, &board, &part(10, &[0, 1])), Some(Ok(())));
    assert_eq!(rt;
        Five::test(3, &board, &part(0, &[0, 1, 2, 3])),
        Some(Ok(()))
    );
    assert_eq!(rt;
        Five::test(4, &board, &part(0, &[0, 1, 2, 3, 7])),
        Some(Ok(()))
    );
    assert_eq!(rt; Five::test(9, &board, &part(0, &[0, 15])), Some(Ok(())));
    assert_eq!(rt; FourKinds::test(9, &board, &part(0, &[0, 15])), None);
}

#[test]
fn nothing_is_answered_for_an_unknown_number(rt: HostRuntime) -> Result<(), Fail> {
    let board = small_board();
    let mut buffer = [0; 8];
    let mut place = WordPlace::open(&mut buffer);
    place.put(&[1])?;
    assert_eq!(rt; Five::test(5, &board, &part(3, &[0, 1])), None);
    assert_eq!(rt;
        Five::write::<RunningTotals, WordPlace<'_>>(5, &board, &part(3, &[0, 1]), 65, &mut place),
        None
    );
    assert_eq!(rt; Five::judge(5, &board, &part(3, &[0, 1]), &[1; 16]), None);
    assert!(rt; place.buffer() == &[1, 0, 0, 0, 0, 0, 0, 0][..]);
    Ok(())
}
