ghost use Rattle.std.specs.Prelude.{◌≡◌, ◌-◌, take, length};
ghost use Rattle.spelling.specs.Store.{Kept};

use crate::way::Spelling;

mod methods;

// Clauses as `S` spells them, one after the other. What is not used is blank. The buffer is lent, since a place takes no
// memory of its own, so the length of its used part stands beside it.
#[derive(Drop)]
pub struct Store<'a, S: Spelling> {
    elements: &'a mut [S::Element],
    used: usize,
    count: usize,
    ghost kept: { Kept S.spelling elements.now used count },
}
