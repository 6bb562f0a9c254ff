// The items of a sum.
ghost use Rattle.std.specs.Prelude.{◌≡◌};
ghost use Rattle.arrayvec.specs.ArrayVec.{array_vec_len};

use arrayvec::ArrayVec;

// A board has at most 16 digits. A sum is over at most 16 cells, and an arrow's circle besides.
const SPACE: usize = 272;

// Variables and their weights: two lists, since a totaller is handed two.
#[derive(Drop)]
pub(crate) struct Items {
    pub(crate) variables: ArrayVec<u32, SPACE>,
    pub(crate) weights: ArrayVec<u8, SPACE>,
    ghost paired: { array_vec_len weights ≡ array_vec_len variables },
}
