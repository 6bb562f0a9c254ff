// Bits of weights and of targets.
ghost use Rattle.std.specs.Prelude.{◌≡◌, ◌<◌};
ghost use Rattle.totals.specs.Adders.{has_bit};

// One of the eleven bits that a total can have.
#[derive(Clone, Copy)]
pub(crate) struct Bit {
    pub(crate) index: usize,
    ghost low: { index < 11 },
}

impl Bit {
    // Whether the number has the bit.
    pub(crate) fn is_in(self, number: u32) -> bool
        ensures { result ≡ has_bit self.index number }
    {
        (number >> self.index) % 2 == 1
    }
}
