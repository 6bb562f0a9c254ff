use clause_text::with_heading;
use places::Place;
use std::test::Fail;
use text_place::TextPlace;

#[test]
fn the_clauses_stand_behind_their_heading(rt: HostRuntime) -> Result<(), Fail> {
    let mut buffer = [0; 64];
    let mut place = TextPlace::open(&mut buffer);
    place.put(&[1, -2])?;
    place.put(&[-65_535])?;
    let text = with_heading(rt.alloc(), b"p cnf 65535 2\n", &place)?;
    assert!(rt; text.as_slice() == b"p cnf 65535 2\n1 -2 0\n-65535 0\n".as_slice());
    Ok(())
}
