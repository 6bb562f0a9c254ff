use crate::set::{Five, part, small_board, told};
use kinds::Kinds;

const GRID: [u8; 16] = [1, 2, 3, 4, 3, 4, 1, 2, 2, 1, 4, 3, 4, 3, 2, 1];

#[test]
fn a_grid_keeps_a_part_or_not(rt: HostRuntime) {
    let board = small_board();
    let parts = [
        (1, part(0, b"12............01"), true),
        (1, part(0, b"13.............."), false),
        (2, part(3, &[0, 1]), true),
        (2, part(4, &[0, 1]), false),
        (2, part(2, &[0, 6]), false),
        (3, part(0, &[6, 2, 5]), true),
        (3, part(0, &[6, 9]), false),
        (4, part(0, &[2, 1, 0]), true),
        (4, part(0, &[3, 2]), false),
        (9, part(0, &[0, 6]), true),
        (9, part(0, &[0, 1]), false),
    ];
    for (kind, offered, kept) in &parts {
        let answer = Five::judge(*kind, &board, offered, &GRID);
        assert_eq!(rt; answer, Some(Ok(*kept)));
    }
}

#[test]
fn a_wrong_grid_is_refused(rt: HostRuntime) {
    let board = small_board();
    let short = Five::judge(2, &board, &part(3, &[0, 1]), &[5; 15]);
    assert_eq!(rt; told(short), Some((12, 0)));
    let mut grid = GRID;
    grid[15] = 0;
    grid[6] = 5;
    let no_digit = Five::judge(3, &board, &part(0, &[0, 1]), &grid);
    assert_eq!(rt; told(no_digit), Some((13, 6)));
    let no_part = Five::judge(2, &board, &part(11, &[0, 1]), &grid);
    assert_eq!(rt; told(no_part), Some((7, 0)));
}
