// Writes what a place holds as a clause text.
ghost use Rattle.std.specs.Prelude.{◌≡◌, ◌++◌, IfOk};
ghost use Rattle.spelling.specs.Text.{spelled_text};
ghost use Rattle.text_place.specs.Meaning.{held_text};
ghost use Rattle.clause_text.specs.Writing.{cnf};

use places::Place;
use std::alloc::{AllocError, Global};
use text_place::{TextPlace, write_heading};

// How many bytes there are for the clauses. Each caller makes its room and its place: a function that took the writing
// as a closure would have to ask of its callers that the closure may be called.
pub const ROOM: usize = 1_048_576;

// Room for any heading, which is written at the start of a buffer that the caller has, as a draft writes it.
pub const LONGEST_HEADING: usize = 48;

// The heading, with the greatest variable, and the lines of the clauses that a place holds.
pub fn clause_text(heap: Global, last: u32, place: &TextPlace<'_>) -> Result<Vec<u8>, AllocError>
    ensures { IfOk result (λ text. text.items ≡ cnf last (held_text place.now)) }
{
    let mut heading = [0; LONGEST_HEADING];
    let len = write_heading(&mut heading, last, place.count()).unwrap();
    with_heading(heap, &heading[..len], place)
}

// A heading that is written already, and the lines of the clauses that a place holds.
pub fn with_heading(
    heap: Global,
    heading: &[u8],
    place: &TextPlace<'_>,
) -> Result<Vec<u8>, AllocError>
    ensures { IfOk result (λ text. text.items ≡ heading.now ++ spelled_text (held_text place.now)) }
{
    let mut text = Vec::new(heap);
    text.extend_from_slice(heading)?;
    text.extend_from_slice(place.used())?;
    Ok(text)
}
