// A draft text in, a clause text out.
ghost use Rattle.std.specs.Prelude.{◌≡◌, length};
ghost use Rattle.desk.specs.Encoding.{Encoded, Written, fault_at_line};

use crate::fault::EncodeFault;
use crate::read::read_draft;
use clause_text::{LONGEST_HEADING, ROOM, WriteFault, with_heading};
use draft::{Draft, DraftFault};
use std::alloc::Global;
use text_place::TextPlace;

// The clause text of the draft that a text describes.
pub fn encode(heap: Global, text: &[u8]) -> Result<Vec<u8>, EncodeFault>
    ensures { Encoded text.now result }
{
    let said = read_draft(text)?;
    let mut room = vec![in heap; 0; ROOM]?;
    write_draft(heap, said.side, room.as_mut_slice()).map_err(|fault| at_line(said.line, fault))
}

// Why the draft was not written that a line says.
fn at_line(line: usize, fault: WriteFault<DraftFault>) -> EncodeFault
    ensures { result ≡ fault_at_line line fault }
{
    match fault {
        WriteFault::Refused(fault) => EncodeFault::Draft { line, fault },
        WriteFault::Memory => EncodeFault::Memory,
    }
}

// Heading and clauses of a draft of a side; the clauses are made in `room`. The draft writes its own heading, so that
// what it promises of it is what is used here; `clause_text` is for those that have none.
fn write_draft(
    heap: Global,
    side: usize,
    room: &mut [u8],
) -> Result<Vec<u8>, WriteFault<DraftFault>>
    ensures { Written side (length room.old) result }
{
    let mut place = TextPlace::open(room);
    let draft = Draft::open(side, &mut place).map_err(WriteFault::Refused)?;
    let mut heading = [0; LONGEST_HEADING];
    let len = draft.heading(&place, &mut heading).unwrap();
    let text = with_heading(heap, &heading[..len], &place)?;
    Ok(text)
}
