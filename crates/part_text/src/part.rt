ghost use Rattle.std.specs.Prelude.{◌≡◌};
ghost use Rattle.std.specs.Result.{result_ok};
ghost use Rattle.part_text.specs.Board.{board};
ghost use Rattle.part_text.specs.Names.{kind_of, side_of};

use boards::Board;
use std::str::FromStr;
use sum_text::{Method, UnknownName};

// The side of a board.
#[derive(Clone, Copy, PartialEq, Eq, Debug)]
pub enum Side {
    Four,
    Nine,
}

impl From<Side> for Board {
    ghost from_gives = { λ side b. b ≡ board side };

    fn from(side: Side) -> Board {
        let side = match side {
            Side::Four => 4,
            Side::Nine => 9,
        };
        Board::of_side(side).unwrap()
    }
}

impl FromStr for Side {
    type Err = UnknownName;

    ghost from_str_gives = { λ word r. result_ok r ≡ side_of word };

    fn from_str(word: &str) -> Result<Side, UnknownName> {
        match word {
            "4" => Ok(Side::Four),
            "9" => Ok(Side::Nine),
            _ => Err(UnknownName),
        }
    }
}

// Which kind a part is of.
#[derive(Clone, Copy, PartialEq, Eq, Debug)]
pub enum KindName {
    Givens,
    Cage,
    Thermometer,
    Arrow,
}

impl FromStr for KindName {
    type Err = UnknownName;

    ghost from_str_gives = { λ word r. result_ok r ≡ kind_of word };

    fn from_str(word: &str) -> Result<KindName, UnknownName> {
        match word {
            "givens" => Ok(KindName::Givens),
            "cage" => Ok(KindName::Cage),
            "thermometer" => Ok(KindName::Thermometer),
            "arrow" => Ok(KindName::Arrow),
            _ => Err(UnknownName),
        }
    }
}

// A part on an empty board.
#[derive(Drop)]
pub struct Part {
    // The totaller that writes its sum, if it has one.
    pub method: Method,
    pub side: Side,
    pub kind: KindName,
    // 0 for a kind without a total.
    pub total: u32,
    // The characters of givens, or the cells.
    pub body: Vec<u8>,
}
