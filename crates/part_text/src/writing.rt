// Writes a part as a clause text.
ghost use Rattle.std.specs.Prelude.{length};
ghost use Rattle.part_text.specs.Writing.{Written, WrittenOn};

use crate::fault::PartFault;
use crate::part::Part;
use boards::{Board, write_base};
use clause_text::{ROOM, WriteFault, clause_text};
use kinds::Kind;
use parts::Part as Offered;
use std::alloc::Global;
use text_place::TextPlace;
use totallers::Totaller;

// The clause text of an empty board with the part, as the kind `K` and the totaller `T` write it.
pub fn write_part<T: Totaller, K: Kind>(
    heap: Global,
    part: &Part,
) -> Result<Vec<u8>, WriteFault<PartFault>>
    ensures { Written K.Kind.meaning T.Totaller.meaning part.now 1048576 result }
{
    let mut room = vec![in heap; 0; ROOM]?;
    let board = Board::from(part.side);
    write_in::<T, K>(
        heap,
        &board,
        &Offered {
            total: part.total,
            body: part.body.as_slice(),
        },
        room.as_mut_slice(),
    )
}

// The same, where the clauses are made in `room`.
fn write_in<T: Totaller, K: Kind>(
    heap: Global,
    board: &Board,
    part: &Offered<'_>,
    room: &mut [u8],
) -> Result<Vec<u8>, WriteFault<PartFault>>
    ensures { WrittenOn K.Kind.meaning T.Totaller.meaning board.now part.now.total part.now.body.now (length room.old) result }
{
    let mut place = TextPlace::open(room);
    write_base(board, &mut place).map_err(|fault| WriteFault::Refused(PartFault::Base(fault)))?;
    let cell_variables = (board.cells() * board.side()) as u32;
    let fresh = K::write::<T, TextPlace<'_>>(board, part, cell_variables + 1, &mut place).map_err(
        |fault| WriteFault::Refused(PartFault::Kind(fault)),
    )?;
    let text = clause_text(heap, cell_variables + fresh, &place)?;
    Ok(text)
}
