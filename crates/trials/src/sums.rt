use places::{Place, PlaceFault};
use running_totals::RunningTotals;
use text_place::TextPlace;
use totallers::{Sum, Totaller, TotallerFault};

#[test]
fn running_totals_of_two_items(rt: HostRuntime) {
    let mut buffer = [0; 200];
    let mut place = TextPlace::open(&mut buffer);
    assert_eq!(rt;
        RunningTotals::write(&sum_of(&[1, 2], &[1, 1], 1, 3), &mut place),
        Ok(6)
    );
    assert_eq!(rt; place.count(), 17);
    assert!(rt;
        place.used()
            == b"3 0\n-4 0\n-1 -5 0\n1 -5 3 0\n1 5 -3 0\n-1 -6 3 0\n-1 6 -3 0\n1 -6 4 0\n1 6 -4 0\n-2 -7 0\n2 -7 5 0\n2 7 -5 0\n-2 -8 5 0\n-2 8 -5 0\n2 -8 6 0\n2 8 -6 0\n8 0\n".as_slice()
    );
}

#[test]
fn refused_sums_put_nothing(rt: HostRuntime) {
    let mut buffer = [0; 20];
    let mut place = TextPlace::open(&mut buffer);
    assert_eq!(rt;
        RunningTotals::write(&sum_of(&[], &[], 1, 3), &mut place),
        Err(TotallerFault::Items)
    );
    assert_eq!(rt;
        RunningTotals::write(&sum_of(&[1], &[1, 1], 1, 3), &mut place),
        Err(TotallerFault::Items)
    );
    assert_eq!(rt;
        RunningTotals::write(&sum_of(&[1, 3], &[1, 1], 1, 3), &mut place),
        Err(TotallerFault::Item { index: 1 })
    );
    assert_eq!(rt;
        RunningTotals::write(&sum_of(&[1, 2], &[16, 1], 1, 3), &mut place),
        Err(TotallerFault::Item { index: 0 })
    );
    assert_eq!(rt;
        RunningTotals::write(&sum_of(&[1, 2], &[1, 1], 64, 3), &mut place),
        Err(TotallerFault::NotTaken { items: 2 })
    );
    assert_eq!(rt;
        RunningTotals::write(&sum_of(&[1, 2], &[1, 1], 1, 65_531), &mut place),
        Err(TotallerFault::FreshNumber)
    );
    assert_eq!(rt; place.count(), 0);
    assert_eq!(rt;
        RunningTotals::write(&sum_of(&[1, 2], &[1, 1], 1, 3), &mut place),
        Err(TotallerFault::Place(PlaceFault::NoSpace { held: 3 }))
    );
}

fn sum_of<'a>(variables: &'a [u32], weights: &'a [u8], target: u32, first: u32) -> Sum<'a> {
    Sum {
        variables,
        weights,
        target,
        first,
    }
}
