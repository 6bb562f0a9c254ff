// Single words.
ghost use Rattle.sum_text.specs.Word.{WordRead};

use std::str::FromStr;
use thiserror::Error;

// The word is none of the names that are known.
#[derive(Clone, Copy, PartialEq, Eq, Debug, Error)]
#[error("unknown name")]
pub struct UnknownName;

// What a word says, or the fault where it says nothing of the kind.
pub fn read_word<T: FromStr, F: Drop>(word: &str, fault: F) -> Result<T, F>
where
    T::Err: Drop,
    ensures { WordRead T.FromStr.from_str_gives word.now fault result }
{
    word.parse().ok().ok_or(fault)
}
