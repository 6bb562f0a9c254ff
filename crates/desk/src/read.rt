// Reads a draft text.
ghost use Rattle.std.specs.Prelude.{◌≡◌, length};
ghost use Rattle.desk.specs.DraftText.{after_side, digit, known, lines_of, read, statement_of};
ghost use Rattle.desk.specs.Rest.{Advances};

use crate::statement::{Reason, SideLine, Statement, TextFault};
use crate::words::{is_line_feed, next_word, without_comment};
use boards::Board;

// The side that a text says, and the line that says it; or the first line that is wrong.
pub fn read_draft(text: &[u8]) -> Result<SideLine, TextFault>
    ensures { result ≡ read text.now }
{
    let mut found = None;
    for (index, bytes) in text.split(is_line_feed).enumerate() {
        found = advance(found, index + 1, read_line(bytes))?;
    }
    found.ok_or_else(|| TextFault {
        line: line_count(text),
        reason: Reason::NoSide,
    })
}

// How many lines the text has.
fn line_count(text: &[u8]) -> usize
    ensures { result ≡ length (lines_of text.now) }
{
    text.split(is_line_feed).count()
}

// What is known of the side once one more line is read. It is one `match`, where each case stands once: which
// fault a wrong line is depends on whether the side is known, so that a `?` on what the line says comes too early.
fn advance(
    found: Option<SideLine>,
    line: usize,
    said: Result<Option<Statement>, Reason>,
) -> Result<Option<SideLine>, TextFault>
    ensures { Advances found line said result }
{
    match (found, said) {
        (_, Ok(None)) => Ok(found),
        (None, Ok(Some(Statement::Side(side)))) => Ok(Some(SideLine { line, side })),
        (None, Err(reason)) => Err(TextFault { line, reason }),
        (Some(_), Ok(Some(Statement::Side(_)))) => {
            let reason = Reason::SecondSide;
            Err(TextFault { line, reason })
        }
        (Some(_), Err(reason)) => {
            let reason = reason_after_side(reason);
            Err(TextFault { line, reason })
        }
    }
}

// What a line says, where it is the first that says something; or what is wrong with it.
fn read_line(line: &[u8]) -> Result<Option<Statement>, Reason>
    ensures { result ≡ statement_of line.now }
{
    let Some((word, rest)) = next_word(without_comment(line)) else {
        return Ok(None);
    };
    if word != b"side".as_slice() {
        return Err(Reason::UnknownStatement);
    }
    let (number, rest) = next_word(rest).ok_or(Reason::SideWords)?;
    if next_word(rest).is_some() {
        return Err(Reason::SideWords);
    }
    let side = known_side(number).ok_or(Reason::SideNumber)?;
    Ok(Some(Statement::Side(side)))
}

// The side of a board.
fn known_side(word: &[u8]) -> Option<usize>
    ensures { result ≡ known (digit word.now) }
{
    one_digit(word).filter(|side| Board::of_side(*side).is_some())
}

// A number of one digit.
fn one_digit(word: &[u8]) -> Option<usize>
    ensures { result ≡ digit word.now }
{
    match word {
        [byte] if byte.is_ascii_digit() => Some(usize::from(*byte - b'0')),
        _ => None,
    }
}

// What is wrong with a line behind the side, where it would be wrong as the first.
fn reason_after_side(reason: Reason) -> Reason
    ensures { result ≡ after_side reason }
{
    match reason {
        Reason::UnknownStatement => Reason::UnknownStatement,
        _ => Reason::SecondSide,
    }
}
