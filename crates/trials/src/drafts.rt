use draft::{Draft, DraftFault};
use places::{Place, PlaceFault};
use std::test::Fail;
use word_place::WordPlace;

#[test]
fn an_empty_board_is_opened(rt: HostRuntime) -> Result<(), Fail> {
    let mut buffer = [0; 1232];
    let mut place = WordPlace::open(&mut buffer);
    let draft = Draft::open(4, &mut place)?;
    assert_eq!(rt; draft.counts(&place), (64, 400));
    let mut heading = [0; 13];
    assert_eq!(rt; draft.heading(&place, &mut heading), Ok(13));
    assert!(rt; &heading[..] == b"p cnf 64 400\n".as_slice());
    let mut short = [1; 12];
    assert_eq!(rt;
        draft.heading(&place, &mut short),
        Err(DraftFault::HeadingLength)
    );
    assert!(rt; &short[..] == &[1; 12][..]);
    Ok(())
}

#[test]
fn a_refused_opening_changes_nothing(rt: HostRuntime) -> Result<(), Fail> {
    let mut buffer = [0; 1231];
    let mut place = WordPlace::open(&mut buffer);
    assert!(rt; Draft::open(6, &mut place).is_err());
    assert!(rt;
        Draft::open(4, &mut place).err()
            == Some(DraftFault::Place(PlaceFault::NoSpace { held: 399 }))
    );
    assert_eq!(rt; place.count(), 0);
    assert!(rt; place.used().is_empty());
    place.put(&[1])?;
    assert!(rt; Draft::open(4, &mut place).err() == Some(DraftFault::NotEmpty));
    assert!(rt; Draft::open(5, &mut place).err() == Some(DraftFault::Side));
    assert_eq!(rt; place.count(), 1);
    Ok(())
}
