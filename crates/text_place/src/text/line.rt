// Lines of text: their lengths, and how they are written.
ghost use Rattle.std.specs.Prelude.{◌≡◌, ◌+◌, ◌-◌, ◌^◌, ◌≤◌, ◌++◌, length, drop, min};
ghost use Rattle.std.specs.Fmt.{signed_decimal};
ghost use Rattle.spelling.specs.Text.{text_line};

use crate::text::numeral::number_len;
use itoa::write_digits;

// How many bytes the line of a clause takes, or the largest number where that is larger.
pub(crate) fn line_len(clause: &[i32]) -> usize
    ensures { result ≡ min (length (text_line clause.now)) (2 ^ 64 - 1) }
{
    let mut len: usize = 2;
    for literal in clause {
        len = len.saturating_add(literal_len(*literal) + 1);
    }
    len
}

// Writes the line of a clause over just as many bytes as it takes; from its end, since `write_digits` writes a number backwards,
// and so needs no length.
pub(crate) fn write_line(bytes: &mut [u8], clause: &[i32])
    requires { length bytes.old ≡ length (text_line clause.now) }
    ensures { bytes.new ≡ text_line clause.now }
{
    let mut end = bytes.len() - 2;
    bytes[end + 1] = b'\n';
    bytes[end] = b'0';
    for literal in clause.iter().rev() {
        end -= 1;
        bytes[end] = b' ';
        end = write_literal(bytes, end, *literal);
    }
}

fn literal_len(literal: i32) -> usize
    ensures { (result ≡ length (signed_decimal literal)) × (result ≤ 21) }
{
    let digits = number_len(u64::from(literal.unsigned_abs()));
    if literal < 0 { digits + 1 } else { digits }
}

// Writes a literal that ends at `end`, and returns where it begins.
fn write_literal(bytes: &mut [u8], end: usize, literal: i32) -> usize
    requires room { length (signed_decimal literal) ≤ end }
    requires within { end ≤ length bytes.old }
    ensures start { result + length (signed_decimal literal) ≡ end }
    ensures written { drop result bytes.new ≡ signed_decimal literal ++ drop end bytes.old }
{
    let start = write_digits(u64::from(literal.unsigned_abs()), bytes, end);
    if literal >= 0 {
        return start;
    }
    bytes[start - 1] = b'-';
    start - 1
}
