// Bytes that are written one after the other.
ghost use Rattle.std.specs.Prelude.{◌≡◌, ◌+◌, ◌≤◌, length};
ghost use Rattle.spelling.specs.Spelling.{overwritten};

// Writes bytes from `at` on, and returns where they end. A struct of the buffer and its end would promise at each call that
// it keeps its buffer, and is no plainer.
pub(crate) fn write_bytes(bytes: &mut [u8], at: usize, part: &[u8]) -> usize
    requires { at + length part.now ≤ length bytes.old }
    ensures end { result ≡ at + length part.now }
    ensures after { bytes.new ≡ overwritten bytes.old at part.now }
{
    let end = at + part.len();
    bytes[at..end].copy_from_slice(part);
    end
}
