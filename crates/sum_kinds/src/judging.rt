// The digits of cells in a grid. That the cells lie in it stays a clause of each: a struct of the two would be made anew
// for each call, and for each rest of the cells.
ghost use Rattle.std.specs.Prelude.{All, ◌≡◌, ◌<◌, ◌≤◌, not, length, sum_by, ◌==◌, slice_index};
ghost use Rattle.std.specs.List.{list_all, AllByRecursion as Each};
ghost use Rattle.meanings.specs.Cage as cage;

// The digits of the cells, added.
pub(crate) fn sum_digits(cells: &[u8], grid: &[u8]) -> u32
    requires few { length cells.now ≤ 255 }
    requires cells { All (λ c. c < length grid.now) cells.now }
    ensures { result ≡ sum_by (λ c. slice_index grid.now c) cells.now }
{
    cells.iter().map(|cell| grid[*cell as usize] as u32).sum()
}

// Whether no two of the cells have the same digit.
pub(crate) fn digits_differ(cells: &[u8], grid: &[u8]) -> bool
    requires { Each (λ c. c < length grid.now) cells.now }
    ensures { result ≡ cage.differ grid.now cells.now }
{
    // The others by an index: with `split_first` the loop needs a measure, and that what is left lies in the grid.
    for (index, cell) in cells.iter().enumerate() {
        if !is_new(grid[*cell as usize], &cells[index + 1..], grid) {
            return false;
        }
    }
    true
}

// Whether none of the cells has the digit.
fn is_new(digit: u8, cells: &[u8], grid: &[u8]) -> bool
    requires { All (λ c. c < length grid.now) cells.now }
    ensures { result ≡ list_all (λ q. not (digit == slice_index grid.now q)) cells.now }
{
    cells.iter().all(|cell| digit != grid[*cell as usize])
}
