// The characters of a line of givens.
ghost use Rattle.std.specs.Prelude.{ℕ, ◌≡◌, ◌≤◌, true, not, ◌||◌, [], ◌∷◌, length, ◌==◌, slice_index};
ghost use Rattle.std.specs.Result.{result_err};
ghost use Rattle.std.specs.List.{list_all, zip, AllByRecursion as Each};
ghost use Rattle.places.specs.Written.{Writes};
ghost use Rattle.parts.specs.declared.fault.KindFault.TheVariants.{Character};
ghost use Rattle.parts.specs.Tests.{index_fault};
ghost use Rattle.kinds.specs.Answers.{clauses_from};
ghost use Rattle.meanings.specs.Givens as meaning;

use boards::Board;
use parts::KindFault;
use places::{Place, PlaceFault};

// Each character is a blank or a digit of the board.
pub(crate) fn check_characters(board: &Board, body: &[u8]) -> Result<(), KindFault>
    ensures { result_err result ≡ index_fault (λ i. not (meaning.fitting board.now (slice_index body.now i))) Character body.now }
{
    body.iter()
        .position(|character| !fits(board, *character))
        .map_or(Ok(()), |index| Err(KindFault::Character { index }))
}

fn fits(board: &Board, character: u8) -> bool
    ensures { result ≡ meaning.fitting board.now character }
{
    is_blank(character) || b'1' <= character && character as usize <= b'0' as usize + board.side()
}

// A full stop, or the character 0.
fn is_blank(character: u8) -> bool
    ensures { result ≡ meaning.blank character }
{
    matches!(character, b'.' | b'0')
}

// Whether the grid has the digits that the characters are.
pub(crate) fn shows(body: &[u8], grid: &[u8]) -> bool
    ensures { result ≡ list_all (λ p. meaning.blank p.0 || p.1 == meaning.digit_of p.0) (zip body.now grid.now) }
{
    body.iter()
        .zip(grid)
        .all(|(character, digit)| agrees(*character, *digit))
}

// Whether the cell has the digit that the character is, if it is one.
fn agrees(character: u8, digit: u8) -> bool
    ensures { result ≡ (meaning.blank character || digit == meaning.digit_of character) }
{
    is_blank(character) || digit == character.saturating_sub(b'0')
}

// A clause for each digit. There are no fresh variables, so it does not matter where these begin.
pub(crate) fn write_digits<P: Place>(
    board: &Board,
    body: &[u8],
    place: &mut P,
) -> Result<(), PlaceFault>
    requires few { length body.now ≤ 256 }
    requires characters { Each (λ ch. meaning.fitting board.now ch ≡ true) body.now }
    ensures { (f : ℕ) → Writes P.Place (clauses_from board.now f (meaning.stated 0 body.now)) place.old place.new (result_err result) }
{
    for (index, character) in body.iter().enumerate() {
        write_digit(board, index as u8, *character, place)?;
    }
    Ok(())
}

// The cell has the digit that the character is, if it is one.
fn write_digit<P: Place>(
    board: &Board,
    cell: u8,
    character: u8,
    place: &mut P,
) -> Result<(), PlaceFault>
    requires { meaning.fitting board.now character ≡ true }
    ensures { (f : ℕ) → Writes P.Place (clauses_from board.now f (meaning.stated cell (character ∷ []))) place.old place.new (result_err result) }
{
    if is_blank(character) {
        return Ok(());
    }
    let variable = board.variable(cell, character - b'0');
    place.put(&[variable as i32])
}
