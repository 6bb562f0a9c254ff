// Writes a sum as a clause text.
ghost use Rattle.std.specs.Prelude.{length};
ghost use Rattle.sum_text.specs.Writing.{Written};

use crate::sum::OwnedSum;
use clause_text::{ROOM, WriteFault, clause_text};
use std::alloc::Global;
use text_place::TextPlace;
use totallers::{Sum, Totaller, TotallerFault};

// The clause text of a sum as the totaller `T` writes it.
pub fn write_sum<T: Totaller>(
    heap: Global,
    sum: &OwnedSum,
) -> Result<Vec<u8>, WriteFault<TotallerFault>>
    ensures { Written T.Totaller.meaning sum.now 1048576 result }
{
    let mut room = vec![in heap; 0; ROOM]?;
    write_in::<T>(heap, sum, room.as_mut_slice())
}

// The same, where the clauses are made in `room`.
fn write_in<T: Totaller>(
    heap: Global,
    sum: &OwnedSum,
    room: &mut [u8],
) -> Result<Vec<u8>, WriteFault<TotallerFault>>
    ensures { Written T.Totaller.meaning sum.now (length room.old) result }
{
    let mut place = TextPlace::open(room);
    let items = Sum {
        variables: sum.variables.as_slice(),
        weights: sum.weights.as_slice(),
        target: sum.target,
        first: sum.first,
    };
    let fresh = T::write(&items, &mut place).map_err(WriteFault::Refused)?;
    let text = clause_text(heap, sum.first - 1 + fresh, &place)?;
    Ok(text)
}
