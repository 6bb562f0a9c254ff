use crate::set::{Five, part, small_board, told};
use kinds::Kinds;

#[test]
fn wrong_parts_are_refused(rt: HostRuntime) {
    let board = small_board();
    let parts = [
        (1, part(0, b"..............."), (2, 0)),
        (1, part(0, b"4..5..x........."), (3, 3)),
        (2, part(9, &[]), (2, 0)),
        (2, part(0, &[0]), (7, 0)),
        (2, part(11, &[0]), (7, 0)),
        (2, part(11, &[0, 1, 0]), (5, 2)),
        (3, part(0, &[0, 1, 2, 3, 7]), (2, 0)),
        (3, part(0, &[0, 2]), (6, 1)),
        (3, part(0, &[3, 4]), (6, 1)),
        (4, part(0, &[0]), (2, 0)),
        (4, part(0, &[0, 0, 16]), (4, 2)),
        (4, part(0, &[0, 5, 0]), (5, 2)),
        (4, part(0, &[0, 5, 7]), (6, 2)),
        (9, part(0, &[0, 1, 2]), (2, 0)),
        (9, part(0, &[3, 3]), (5, 1)),
    ];
    for (kind, offered, refusal) in &parts {
        let answer = Five::test(*kind, &board, offered);
        assert_eq!(rt; told(answer), Some(*refusal));
    }
}
