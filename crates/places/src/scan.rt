// Buffers of lines, each closed by a mark: where their last lines begin.
ghost use Rattle.std.specs.Prelude.{◌≡◌, ℕ, ◌<◌, ◌≤◌, Bool, length, drop, count_by};
ghost use Rattle.spelling.specs.Text.{is_line_feed};
ghost use Rattle.spelling.specs.Word.{is_zero};

// An element of such a buffer.
pub trait Element {
    ghost ends: { Self → Bool };

    // Whether it closes a line.
    fn ends_line(&self) -> bool
        ensures { result ≡ ends self.now };
}

impl Element for i32 {
    ghost ends = { is_zero };

    fn ends_line(&self) -> bool {
        *self == 0
    }
}

impl Element for u8 {
    ghost ends = { is_line_feed };

    fn ends_line(&self) -> bool {
        *self == b'\n'
    }
}

// Where the longest end of the buffer begins that has at most `lines` marks.
pub fn last_lines<T: Element>(buffer: &[T], lines: usize) -> usize
    ensures within { result ≤ length buffer.now }
    ensures most { count_by T.Element.ends (drop result buffer.now) ≤ lines }
    ensures least { (k : ℕ) → k < result → lines < count_by T.Element.ends (drop k buffer.now) }
{
    let mut left = lines;
    for (index, element) in buffer.iter().enumerate().rev() {
        if element.ends_line() {
            if left == 0 {
                return index + 1;
            }
            left -= 1;
        }
    }
    0
}
