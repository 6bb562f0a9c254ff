// How many adders the lines have.
ghost use Rattle.std.specs.Prelude.{◌≡◌, ◌≤◌, length};
ghost use Rattle.totals.specs.Adders.{with_bit};
ghost use Rattle.totals.specs.Numbers.{count_from};

use crate::bit::Bit;

// 96 items of at most 15 total less than 2 to the 11th.
pub(crate) const LINES: usize = 11;

// How many weights have the bit.
#[tactic(auto, using(crate::proofs::Filling::with_bit_count))]
fn count_with_bit(weights: &[u8], bit: Bit) -> u32
    requires { length weights.now ≤ 96 }
    ensures { result ≡ length (with_bit (λ i. i) bit.index 0 weights.now) }
{
    // A filter would branch at each weight; a sum of ones and zeros does not.
    weights
        .iter()
        .map(|weight| u32::from(bit.is_in(*weight as u32)))
        .sum()
}

// How many adders all lines have: one for every two variables of a line.
pub(crate) fn count_adders(weights: &[u8]) -> u32
    requires { length weights.now ≤ 96 }
    ensures { (result ≡ count_from weights.now 0 0) × (result ≤ 1056) }
{
    let mut carries = 0;
    let mut adders = 0;
    for index in 0..LINES {
        carries = (count_with_bit(weights, Bit { index }) + carries) / 2;
        adders += carries;
    }
    adders
}
