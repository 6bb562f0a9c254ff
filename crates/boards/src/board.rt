ghost use Rattle.std.specs.Prelude.{◌*◌, ◌≤◌};

mod methods;

// A square board of boxes that are `height` cells high and `width` cells wide: each row, column and box has
// height × width cells, and takes as many digits.
#[derive(Clone, Copy)]
pub struct Board {
    pub(crate) height: u8,
    pub(crate) width: u8,
    ghost tall: { 1 ≤ height },
    ghost wide: { 1 ≤ width },
    ghost small: { height * width ≤ 16 },
}
