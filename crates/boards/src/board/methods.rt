ghost use Rattle.std.specs.Prelude.{◌≡◌, ◌≤◌};
ghost use Rattle.boards.specs.Atoms.{at, number};
ghost use Rattle.boards.specs.Board.{board_of, cells, side};

use crate::board::Board;

impl Board {
    // The board of a side: 4 has boxes of 2 by 2 cells, and 9 of 3 by 3. There is no other.
    pub fn of_side(side: usize) -> Option<Board>
        ensures { result ≡ board_of side }
    {
        match side {
            4 => Some(Board {
                height: 2,
                width: 2,
            }),
            9 => Some(Board {
                height: 3,
                width: 3,
            }),
            _ => None,
        }
    }

    // How many cells a row, a column or a box has.
    pub fn side(&self) -> usize
        ensures value { result ≡ side self.now }
        ensures bound { (1 ≤ result) × (result ≤ 16) }
    {
        self.height as usize * self.width as usize
    }

    // How many cells the board has.
    pub fn cells(&self) -> usize
        ensures value { result ≡ cells self.now }
        ensures bound { result ≤ 256 }
    {
        self.side() * self.side()
    }

    // The number of the variable which says that a cell has a digit.
    pub fn variable(&self, cell: u8, digit: u8) -> u32
        ensures value { result ≡ number self.now 0 (at cell digit) }
        ensures bound { result ≤ 4335 }
    {
        cell as u32 * self.side() as u32 + digit as u32
    }
}
