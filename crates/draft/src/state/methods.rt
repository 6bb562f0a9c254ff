ghost use Rattle.std.specs.Prelude.{◌≡◌, ◌^◌, ◌<◌, ◌++◌, length, drop, is_ok, if◌then◌else◌};
ghost use Rattle.std.specs.Option.{option_map};
ghost use Rattle.std.specs.Result.{result_err, result_ok};
ghost use Rattle.spelling.specs.Text.{heading};
ghost use Rattle.draft.specs.Fault.{refusal};
ghost use Rattle.draft.specs.Heading.{heading_fault, heading_length};
ghost use Rattle.draft.specs.Opening.{Opened, open_fault, open_refusal};

use crate::fault::DraftFault;
use crate::state::Draft;
use boards::{Board, write_base};
use places::Place;
use text_place::write_heading;

impl Draft {
    // Opens a draft of a side on an empty place: what every grid obeys is written there. Otherwise the place is as it was.
    pub fn open<P: Place>(side: usize, place: &mut P) -> Result<Draft, DraftFault>
        ensures fault { result_err result ≡ open_fault P.Place side place.old }
        ensures refusal { option_map refusal (result_err result) ≡ open_refusal P.Place side place.old }
        ensures opened { Opened P.Place side place.old place.new result }
    {
        let board = Board::of_side(side).ok_or(DraftFault::Side)?;
        if place.count() > 0 {
            return Err(DraftFault::NotEmpty);
        }
        if let Err(fault) = write_base(&board, place) {
            place.cut_back(0);
            return Err(DraftFault::from(fault));
        }
        let variables = (board.cells() * board.side()) as u32;
        Ok(Draft { board, variables })
    }

    // How many variables the draft has, and how many clauses its place holds.
    pub fn counts<P: Place>(&self, place: &P) -> (u32, usize)
        ensures { result ≡ (self.now.variables, length (P.Place.held place.now)) }
    {
        (self.variables, place.count())
    }

    // Writes `p cnf `, the two counts with a space between, and a line feed at the buffer's start, and returns their length.
    // A buffer that is too short stays as it was.
    pub fn heading<P: Place>(&self, place: &P, buffer: &mut [u8]) -> Result<usize, DraftFault>
        ensures fault { result_err result ≡ heading_fault (heading self.now.variables (length (P.Place.held place.now))) buffer.old }
        ensures value { result_ok result ≡ heading_length (heading self.now.variables (length (P.Place.held place.now))) buffer.old }
        ensures after { buffer.new ≡ (if is_ok result then heading self.now.variables (length (P.Place.held place.now)) ++ drop (length (heading self.now.variables (length (P.Place.held place.now)))) buffer.old else buffer.old) }
        ensures few { length (P.Place.held place.now) < 2 ^ 64 }
    {
        let (variables, clauses) = self.counts(place);
        write_heading(buffer, variables, clauses).ok_or(DraftFault::HeadingLength)
    }
}
