ghost use Rattle.std.specs.Prelude.{◌≤◌};

mod methods;

// The cells of one row, column or box, in rising order. An array beside how many of it count, and no `ArrayVec`: a line
// is copied freely, where an `ArrayVec` has only a `clone`, which may fail.
#[derive(Clone, Copy)]
pub struct Line {
    cells: [u8; 16],
    len: usize,
    ghost fits: { len ≤ 16 },
}
