ghost use Rattle.std.specs.Prelude.{◌≡◌, ℕ, ◌+◌, ◌-◌, List, [], ◌∷◌, ◌++◌, length, take, drop, ℤ, is_ok, if◌then◌else◌, sum_by};
ghost use Rattle.std.specs.Option.{option_map};
ghost use Rattle.std.specs.Result.{result_err};
ghost use Rattle.places.specs.Fault.{refusal};
ghost use Rattle.places.specs.Put.{put_fault, put_refusal};

use crate::fault::PlaceFault;

// A store of clauses. A clause is a list of literals: a variable's number, negative for "not".
pub trait Place {
    // The clauses that the place holds, in the order that they were put.
    ghost held: { Self → List (List ℤ) };

    // The space that is left.
    ghost free: { Self → ℕ };

    // The space that a clause takes, in any place of this kind.
    ghost charge: { List ℤ → ℕ };

    // Adds a clause at the end, or refuses it and changes nothing.
    fn put(&mut self, clause: &[i32]) -> Result<(), PlaceFault>
        ensures fault { result_err result ≡ put_fault charge clause.now (held self.old) (free self.old) }
        ensures refusal { option_map refusal (result_err result) ≡ put_refusal charge clause.now (held self.old) (free self.old) }
        ensures holds { held self.new ≡ (if is_ok result then held self.old ++ clause.now ∷ [] else held self.old) }
        ensures room { free self.new ≡ (if is_ok result then free self.old - charge clause.now else free self.old) };

    // Keeps the first `m` clauses, or all where there are fewer, and frees the rest's space.
    fn cut_back(&mut self, m: usize)
        ensures holds { held self.new ≡ take m (held self.old) }
        ensures room { free self.new ≡ free self.old + sum_by charge (drop m (held self.old)) };

    // How many clauses are held.
    fn count(&self) -> usize
        ensures { result ≡ length (held self.now) };
}
