ghost use Rattle.std.specs.Prelude.{◌≤◌};

use boards::Board;

mod methods;

// A draft: its board, and how many variables its clauses speak of. The clauses are in a place, which each call is lent.
#[derive(Clone, Copy)]
pub struct Draft {
    board: Board,
    variables: u32,
    ghost few: { variables ≤ 65535 },
}
