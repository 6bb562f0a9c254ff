// Reads a sum from its words: `METHOD TARGET FIRST VARIABLE:WEIGHT ...`.
ghost use Rattle.sum_text.specs.Reading.{ItemRead, ItemsRead, SumRead};

use crate::fault::SumTextFault;
use crate::sum::OwnedSum;
use crate::word::read_word;
use std::alloc::Global;

// The sum that the words say, or the first word that is wrong.
pub fn read_sum<'a>(heap: Global, words: &[&'a str]) -> Result<OwnedSum, SumTextFault<'a>>
    ensures { SumRead words.now result }
{
    let [method, target, first, items @ ..] = words else {
        return Err(SumTextFault::TooFewWords);
    };
    let method = read_word(method, SumTextFault::Method(method))?;
    let target = read_word(target, SumTextFault::Number(target))?;
    let first = read_word(first, SumTextFault::Number(first))?;
    let (variables, weights) = read_items(heap, items)?;
    Ok(OwnedSum {
        method,
        target,
        first,
        variables,
        weights,
    })
}

// The variables and the weights of the items.
fn read_items<'a>(heap: Global, words: &[&'a str]) -> Result<(Vec<u32>, Vec<u8>), SumTextFault<'a>>
    ensures { ItemsRead words.now result }
{
    let mut variables = Vec::new(heap);
    let mut weights = Vec::new(heap);
    for word in words {
        let (variable, weight) = read_item(word)?;
        variables.push(variable)?;
        weights.push(weight)?;
    }
    Ok((variables, weights))
}

// A variable and its weight.
fn read_item<'a>(word: &'a str) -> Result<(u32, u8), SumTextFault<'a>>
    ensures { ItemRead word.entry result }
{
    let fault = SumTextFault::Item(word);
    let (variable, weight) = word.split_once(':').ok_or(fault)?;
    let variable = read_word(variable, fault)?;
    let weight = read_word(weight, fault)?;
    Ok((variable, weight))
}
