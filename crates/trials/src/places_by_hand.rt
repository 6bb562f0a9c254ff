use places::{Layer, Place, PlaceFault, Refusal};
use std::test::Fail;
use text_place::{TextPlace, write_heading};
use word_place::WordPlace;

#[test]
fn words_are_put_and_cut(rt: HostRuntime) -> Result<(), Fail> {
    let mut buffer = [9; 8];
    let mut place = WordPlace::open(&mut buffer);
    place.put(&[-12, 7])?;
    place.put(&[5])?;
    assert!(rt; place.buffer() == &[-12, 7, 0, 5, 0, 0, 0, 0][..]);
    assert_eq!(rt; place.put(&[1, 2, 3]), Err(PlaceFault::NoSpace { held: 2 }));
    place.cut_back(1);
    assert_eq!(rt; place.count(), 1);
    assert!(rt; place.used() == &[-12, 7, 0][..]);
    place.put(&[1, 2, 3, 4])?;
    assert!(rt; place.buffer() == &[-12, 7, 0, 1, 2, 3, 4, 0][..]);
    Ok(())
}

#[test]
fn text_is_put_and_cut(rt: HostRuntime) -> Result<(), Fail> {
    let mut buffer = [9; 20];
    let mut place = TextPlace::open(&mut buffer);
    place.put(&[-12, 7])?;
    place.put(&[-65_535])?;
    assert!(rt; place.used() == b"-12 7 0\n-65535 0\n".as_slice());
    assert_eq!(rt; place.put(&[1]), Err(PlaceFault::NoSpace { held: 2 }));
    place.cut_back(1);
    assert!(rt; place.buffer() == b"-12 7 0\n\0\0\0\0\0\0\0\0\0\0\0\0".as_slice());
    assert_eq!(rt; place.count(), 1);
    Ok(())
}

#[test]
fn faulty_clauses_are_refused(rt: HostRuntime) {
    let mut buffer = [0; 40];
    let mut place = WordPlace::open(&mut buffer);
    assert_eq!(rt; place.put(&[]), Err(PlaceFault::ClauseLength));
    assert_eq!(rt; place.put(&[1; 17]), Err(PlaceFault::ClauseLength));
    assert_eq!(rt;
        place.put(&[1, i32::MIN]),
        Err(PlaceFault::Literal { index: 1 })
    );
    assert_eq!(rt;
        place.put(&[65_536, 0]),
        Err(PlaceFault::Literal { index: 0 })
    );
    assert_eq!(rt; place.put(&[1; 16]), Ok(()));
    let fault = PlaceFault::NoSpace { held: 3 };
    assert_eq!(rt;
        Refusal::from(fault),
        Refusal {
            number: 25,
            layer: Layer::Place,
            position: 3,
        }
    );
}

#[test]
fn a_heading_fits_or_is_refused(rt: HostRuntime) {
    let mut buffer = [7; 12];
    assert_eq!(rt; write_heading(&mut buffer, 4, 9), Some(10));
    assert!(rt; &buffer[..] == b"p cnf 4 9\n\x07\x07".as_slice());
    let mut short = [7; 9];
    assert_eq!(rt; write_heading(&mut short, 4, 9), None);
    assert!(rt; &short[..] == &[7; 9][..]);
}
