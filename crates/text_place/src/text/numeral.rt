// Numbers in base ten.
ghost use Rattle.std.specs.Prelude.{◌≡◌, ◌≤◌, length, decimal};

// How many digits a number has.
pub(crate) fn number_len(n: u64) -> usize
    ensures { (result ≡ length (decimal n)) × (result ≤ 20) }
{
    if n < 10 { 1 } else { number_len(n / 10) + 1 }
}
