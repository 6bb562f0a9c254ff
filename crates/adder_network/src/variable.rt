// The variables of an adder network.
ghost use Rattle.std.specs.Prelude.{◌+◌, ◌≤◌};

// A variable that a place takes.
#[derive(Clone, Copy)]
pub(crate) struct Variable {
    pub(crate) number: u32,
    ghost low: { 1 ≤ number },
    ghost high: { number ≤ 65535 },
}

// What fills the space of a line that is not in use.
impl Default for Variable {
    fn default() -> Self {
        Variable { number: 1 }
    }
}

// The fresh variables of an adder: its sum, and after it its carry.
#[derive(Clone, Copy)]
pub(crate) struct Outputs {
    pub(crate) sum: u32,
    ghost low: { 1 ≤ sum },
    ghost high: { sum + 1 ≤ 65535 },
}
