ghost use Rattle.std.specs.Prelude.{◌≡◌, ◌<◌, [], ◌∷◌};
ghost use Rattle.arrayvec.specs.ArrayVec.{array_vec_len};
ghost use Rattle.sum_kinds.specs.Items.{Longer};

use crate::items::Items;
use arrayvec::ArrayVec;

impl Items {
    pub(crate) fn none() -> Items
        ensures { (result.variables.items ≡ []) × (result.weights.items ≡ []) }
    {
        Items {
            variables: ArrayVec::new(),
            weights: ArrayVec::new(),
        }
    }

    // An item more, at the end.
    pub(crate) fn push(&mut self, variable: u32, weight: u8)
        requires { array_vec_len self.old.variables < 272 }
        ensures { Longer self.old (variable ∷ []) (weight ∷ []) self.new }
    {
        self.variables.push(variable);
        self.weights.push(weight);
    }
}
