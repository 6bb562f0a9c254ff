ghost use Rattle.spelling.proofs.Words.{words_lawful};
ghost use Rattle.spelling.specs.Word.{words};

use store::{Spelling, Store};

// Clauses in words: the literals of each clause, and then 0. What is not used is 0.
pub enum Words {}

// A place of words.
pub type WordPlace<'a> = Store<'a, Words>;

impl Spelling for Words {
    type Element = i32;

    ghost spelling = { words };

    fn clear(elements: &mut [i32]) {
        elements.fill(0);
    }

    fn write(room: &mut [i32], clause: &[i32]) -> Option<usize> {
        let end = clause.len();
        let charge = end + 1;
        if charge > room.len() {
            return None;
        }
        room[end] = 0;
        room[..end].copy_from_slice(clause);
        Some(charge)
    }

    ghost lawful = { words_lawful };
}
