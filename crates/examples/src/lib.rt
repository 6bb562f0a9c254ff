// Worked examples, all under one proof.
#![tactic(auto)]

ghost use Rattle.std.specs.Prelude.{◌≡◌, length};
ghost use Rattle.examples.specs.Examples.{Examples, examples};

// How many examples there are; all of them hold.
pub fn example_count() -> usize
    ensures count { result ≡ length examples }
    ensures all { Examples }
{
    7
}
