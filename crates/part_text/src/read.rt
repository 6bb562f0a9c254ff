// Reads a part from its words: `TOTALLER SIDE KIND TOTAL BODY`.
ghost use Rattle.std.specs.Prelude.{map, IfOk};
ghost use Rattle.part_text.specs.Reading.{Body, Cells, Characters, Says};

use crate::fault::PartTextFault;
use crate::part::{KindName, Part};
use std::alloc::Global;
use sum_text::read_word;

// The part that the words say, or the first word that is wrong.
pub fn read_part<'a>(heap: Global, words: &[&'a str]) -> Result<Part, PartTextFault<'a>>
    ensures { IfOk result (Says (map (λ x. x.now) words.now)) }
{
    let [method, side, kind, total, body @ ..] = words else {
        return Err(PartTextFault::TooFewWords);
    };
    let method = read_word(method, PartTextFault::Method(method))?;
    let side = read_word(side, PartTextFault::Side(side))?;
    let kind = read_word(kind, PartTextFault::Kind(kind))?;
    let total = read_word(total, PartTextFault::Total(total))?;
    let body = read_body(heap, kind, body)?;
    Ok(Part {
        method,
        side,
        kind,
        total,
        body,
    })
}

// What stands behind the total.
fn read_body<'a>(
    heap: Global,
    kind: KindName,
    words: &[&'a str],
) -> Result<Vec<u8>, PartTextFault<'a>>
    ensures { IfOk result (λ body. Body kind (map (λ x. x.now) words.now) body.items) }
{
    match kind {
        KindName::Givens => read_characters(heap, words),
        KindName::Cage | KindName::Thermometer | KindName::Arrow => read_cells(heap, words),
    }
}

// The bytes of one word, or none where there is no word.
fn read_characters<'a>(heap: Global, words: &[&'a str]) -> Result<Vec<u8>, PartTextFault<'a>>
    ensures { IfOk result (λ body. Characters (map (λ x. x.now) words.now) body.items) }
{
    let mut body = Vec::new(heap);
    match words {
        [] => {}
        [line] => body.extend_from_slice(line.as_bytes())?,
        [_, behind, ..] => return Err(PartTextFault::Behind(behind)),
    }
    Ok(body)
}

// A cell for each word.
fn read_cells<'a>(heap: Global, words: &[&'a str]) -> Result<Vec<u8>, PartTextFault<'a>>
    ensures { IfOk result (λ body. Cells (map (λ x. x.now) words.now) body.items) }
{
    let mut body = Vec::new(heap);
    for word in words {
        body.push(read_word(word, PartTextFault::Cell(word))?)?;
    }
    Ok(body)
}
