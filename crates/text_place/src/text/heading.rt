// The first line of a clause text.
ghost use Rattle.std.specs.Prelude.{◌≡◌, ◌++◌, length, drop, is_some, if◌then◌else◌, Some, None, nat_le};
ghost use Rattle.spelling.specs.Text.{heading};

use crate::text::bytes::write_bytes;
use itoa::Buffer;

// Writes the heading at the buffer's start, and returns its length; or None where the buffer is too short,
// and nothing is changed.
pub fn write_heading(bytes: &mut [u8], variables: u32, clauses: usize) -> Option<usize>
    ensures value { result ≡ (if nat_le (length (heading variables clauses)) (length bytes.old) then Some (length (heading variables clauses)) else None) }
    ensures after { bytes.new ≡ (if is_some result then heading variables clauses ++ drop (length (heading variables clauses)) bytes.old else bytes.old) }
{
    let mut variable_digits = Buffer::new();
    let mut clause_digits = Buffer::new();
    let variables = variable_digits.format(variables).as_bytes();
    let clauses = clause_digits.format(clauses).as_bytes();
    let len = variables.len() + clauses.len() + 8;
    if len > bytes.len() {
        return None;
    }
    let mut end = write_bytes(bytes, 0, b"p cnf ");
    end = write_bytes(bytes, end, variables);
    end = write_bytes(bytes, end, b" ");
    end = write_bytes(bytes, end, clauses);
    end = write_bytes(bytes, end, b"\n");
    Some(end)
}
