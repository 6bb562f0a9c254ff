ghost use Rattle.spelling.proofs.Texts.{text_lawful};
ghost use Rattle.spelling.specs.Text.{text};

use crate::text::line::{line_len, write_line};
use store::{Spelling, Store};

mod bytes;
mod heading;
mod line;
mod numeral;

pub use heading::write_heading;

// Clauses as text, a line for each, as `-12 7 0`. What is not used is 0.
pub enum Lines {}

// A place of text.
pub type TextPlace<'a> = Store<'a, Lines>;

impl Spelling for Lines {
    type Element = u8;

    ghost spelling = { text };

    fn clear(elements: &mut [u8]) {
        elements.fill(0);
    }

    fn write(room: &mut [u8], clause: &[i32]) -> Option<usize> {
        let charge = line_len(clause);
        if charge > room.len() {
            return None;
        }
        write_line(&mut room[..charge], clause);
        Some(charge)
    }

    ghost lawful = { text_lawful };
}
