// One sum written to a buffer of words, for a program of another language that measures how long it takes.
#![tactic(auto)]

ghost use Rattle.std.specs.Prelude.{◌≡◌, length};
ghost use Rattle.totals.specs.Adders.{adders};
ghost use Rattle.totals.specs.Running.{running};
ghost use Rattle.bench_sums.specs.Words.{words_of};

use adder_network::AdderNetwork;
use running_totals::RunningTotals;
use totallers::{Sum, Totaller};
use word_place::WordPlace;

// By running totals: how many words the clauses take, or 0 if the sum is refused. The parts of the sum come one by one, as
// the C interface has them.
#[unsafe(no_mangle)]
pub extern "C" fn bench_sums_running(
    variables: &[u32],
    weights: &[u8],
    target: u32,
    first: u32,
    words: &mut [i32],
) -> usize
    ensures { result ≡ words_of running variables.now weights.now target first (length words.old) }
{
    let sum = Sum {
        variables,
        weights,
        target,
        first,
    };
    write_words::<RunningTotals>(&sum, words)
}

// The same by the adder network.
#[unsafe(no_mangle)]
pub extern "C" fn bench_sums_adder(
    variables: &[u32],
    weights: &[u8],
    target: u32,
    first: u32,
    words: &mut [i32],
) -> usize
    ensures { result ≡ words_of adders variables.now weights.now target first (length words.old) }
{
    let sum = Sum {
        variables,
        weights,
        target,
        first,
    };
    write_words::<AdderNetwork>(&sum, words)
}

// What the buffer holds afterwards is in no contract: a place says what it holds while it is there.
fn write_words<T: Totaller>(sum: &Sum<'_>, words: &mut [i32]) -> usize
    ensures { result ≡ words_of T.Totaller.meaning sum.now.variables.now sum.now.weights.now sum.now.target sum.now.first (length words.old) }
{
    let mut place = WordPlace::open(words);
    match T::write(sum, &mut place) {
        Ok(_) => place.used().len(),
        Err(_) => 0,
    }
}
