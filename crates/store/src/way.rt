ghost use Rattle.std.specs.Prelude.{◌≡◌, ◌++◌, length, drop, replicate, is_some, if◌then◌else◌, Some, None, nat_le};
ghost use Rattle.spelling.specs.Store.{Lawful, Spelling, line};

use places::Element;

// A way of spelling clauses in a buffer.
pub trait Spelling {
    // What the buffer is made of.
    type Element: Element;

    // Which elements stand for clauses, and which clauses elements stand for.
    ghost spelling: { Spelling Self.Element };

    // Makes free space of the elements.
    fn clear(elements: &mut [Self::Element])
        ensures { elements.new ≡ replicate (length elements.old) spelling.blank };

    // Writes the clause at the start of the room, and returns how many elements it takes; or None where there is too
    // little room, and nothing is changed.
    fn write(room: &mut [Self::Element], clause: &[i32]) -> Option<usize>
        ensures value { result ≡ (if nat_le (spelling.charge clause.now) (length room.old) then Some (spelling.charge clause.now) else None) }
        ensures after { room.new ≡ (if is_some result then line spelling clause.now ++ drop (spelling.charge clause.now) room.old else room.old) };

    // What is written reads back.
    ghost lawful: { Lawful Self.Element.ends spelling };
}
