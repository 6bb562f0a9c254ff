use crate::set::{Five, part, small_board, told};
use adder_network::AdderNetwork;
use boards::Board;
use kinds::Kinds;
use parts::KindFault;
use places::{Place, PlaceFault};
use running_totals::RunningTotals;
use std::test::Fail;
use text_place::TextPlace;
use totallers::{Totaller, TotallerFault};

// The cage of the cells 0 and 1 with total 3 on side 4.
fn write_cage<T: Totaller, P: Place>(first: u32, place: &mut P) -> Option<Result<u32, KindFault>> {
    Five::write::<T, P>(2, &small_board(), &part(3, &[0, 1]), first, place)
}

#[test]
fn parts_with_a_sum_are_written(rt: HostRuntime) {
    let mut buffer = [0; 2000];
    let mut place = TextPlace::open(&mut buffer);
    assert_eq!(rt;
        write_cage::<AdderNetwork, TextPlace<'_>>(65, &mut place),
        Some(Ok(16))
    );
    assert_eq!(rt; place.count(), 100);
    let text = place.used();
    assert!(rt; text.starts_with(b"-1 -5 0\n-2 -6 0\n-3 -7 0\n-4 -8 0\n1 3 5 -65 0\n"));
    assert!(rt; text.ends_with(b"67 0\n73 0\n-77 0\n-79 0\n-80 0\n"));
    place.cut_back(0);
    assert_eq!(rt;
        write_cage::<RunningTotals, TextPlace<'_>>(65, &mut place),
        Some(Ok(36))
    );
    assert_eq!(rt; place.count(), 117);
    place.cut_back(0);
    assert_eq!(rt;
        Five::write::<AdderNetwork, TextPlace<'_>>(
            4,
            &small_board(),
            &part(0, &[0, 1]),
            65,
            &mut place
        ),
        Some(Ok(16))
    );
    assert_eq!(rt; place.count(), 89);
}

#[test]
fn parts_without_a_sum_are_written(rt: HostRuntime) {
    let board = small_board();
    let mut buffer = [0; 200];
    let mut place = TextPlace::open(&mut buffer);
    assert_eq!(rt;
        Five::write::<AdderNetwork, TextPlace<'_>>(
            1,
            &board,
            &part(0, b"1.............04"),
            65,
            &mut place,
        ),
        Some(Ok(0))
    );
    assert!(rt; place.used() == b"1 0\n64 0\n".as_slice());
    place.cut_back(0);
    assert_eq!(rt;
        Five::write::<AdderNetwork, TextPlace<'_>>(3, &board, &part(0, &[0, 1]), 65, &mut place),
        Some(Ok(0))
    );
    assert!(rt;
        place.used()
            == b"-1 -5 0\n-2 -5 0\n-2 -6 0\n-3 -5 0\n-3 -6 0\n-3 -7 0\n-4 -5 0\n-4 -6 0\n-4 -7 0\n-4 -8 0\n".as_slice()
    );
    place.cut_back(0);
    assert_eq!(rt;
        Five::write::<AdderNetwork, TextPlace<'_>>(9, &board, &part(0, &[0, 5]), 65, &mut place),
        Some(Ok(0))
    );
    assert!(rt; place.used() == b"-1 21 0\n-2 22 0\n-3 23 0\n-4 24 0\n".as_slice());
}

#[test]
fn a_refused_part_leaves_the_place(rt: HostRuntime) -> Result<(), Fail> {
    let mut buffer = [0; 2000];
    let mut place = TextPlace::open(&mut buffer);
    place.put(&[7])?;
    assert_eq!(rt;
        told(write_cage::<AdderNetwork, TextPlace<'_>>(64, &mut place)),
        Some((8, 0))
    );
    // With 16 fresh numbers the last would be 65,536.
    assert_eq!(rt;
        told(write_cage::<AdderNetwork, TextPlace<'_>>(65_521, &mut place)),
        Some((24, 0))
    );
    // (72 + 1) × (41 + 1) is more than 3,000.
    let board = Board::of_side(9).unwrap();
    assert_eq!(rt;
        told(Five::write::<RunningTotals, TextPlace<'_>>(
            2,
            &board,
            &part(41, &[0, 1, 2, 3, 4, 5, 6, 7]),
            730,
            &mut place,
        )),
        Some((23, 72))
    );
    assert!(rt; place.used() == b"7 0\n".as_slice());
    Ok(())
}

#[test]
fn a_place_that_is_too_small_takes_what_fits(rt: HostRuntime) {
    let mut buffer = [0; 31];
    let mut place = TextPlace::open(&mut buffer);
    assert_eq!(rt;
        write_cage::<AdderNetwork, TextPlace<'_>>(65, &mut place),
        Some(Err(KindFault::Place(PlaceFault::NoSpace { held: 3 })))
    );
    assert_eq!(rt; place.count(), 3);
    let mut buffer = [0; 43];
    let mut place = TextPlace::open(&mut buffer);
    let answer = write_cage::<AdderNetwork, TextPlace<'_>>(65, &mut place);
    assert_eq!(rt;
        answer,
        Some(Err(KindFault::Totaller(TotallerFault::Place(PlaceFault::NoSpace { held: 4 }))))
    );
    assert_eq!(rt; told(answer), Some((25, 4)));
}
