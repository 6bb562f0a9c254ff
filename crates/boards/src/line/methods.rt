ghost use Rattle.std.specs.Prelude.{◌≡◌, ◌*◌, ◌<◌, [], length, slice_index, slice_index_or};
ghost use Rattle.std.specs.Option.{option_map};
ghost use Rattle.boards.specs.Board.{lines, side};
ghost use Rattle.boards.specs.Line.{cells_of, line_at};

use crate::board::Board;
use crate::line::Line;

impl Line {
    pub fn cells(&self) -> &[u8]
        ensures { result.now ≡ cells_of self.now }
    {
        &self.cells[0..self.len]
    }
}

impl Board {
    // A row, column or box, by its number: all rows first, then all columns, then all boxes.
    pub fn line(&self, number: usize) -> Option<Line>
        ensures { option_map cells_of result ≡ line_at self.now number }
    {
        let side = self.side();
        if number >= 3 * side {
            return None;
        }
        let mut cells = [0; 16];
        for (index, cell) in cells[..side].iter_mut().enumerate() {
            *cell = self.line_cell(number, index);
        }
        Some(Line { cells, len: side })
    }

    // The cell at an index of a line.
    fn line_cell(&self, number: usize, index: usize) -> u8
        requires line { number < 3 * side self.now }
        requires within { index < side self.now }
        ensures { result ≡ slice_index (slice_index_or (lines self.now) number []) index }
    {
        let side = self.side();
        if number < side {
            return (number * side + index) as u8;
        }
        if number < 2 * side {
            return (index * side + (number - side)) as u8;
        }
        let (height, width) = (self.height as usize, self.width as usize);
        let number = number - 2 * side;
        let row = number / height * height + index / width;
        let column = number % height * width + index % width;
        (row * side + column) as u8
    }
}
