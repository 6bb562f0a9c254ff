// Lines, and the words of a line.
ghost use Rattle.std.specs.Prelude.{◌≡◌, ◌-◌, ◌≤◌, not, [], ◌∷◌, length, MatchOption, slice_index_or};
ghost use Rattle.std.specs.List.{position_or_len};
ghost use Rattle.spelling.specs.Text as spelling;
ghost use Rattle.desk.specs.DraftText.{blank, code_of, lines_of, words_of};
ghost use Rattle.desk.specs.Rest.{first};

// What stands between lines.
pub(crate) fn is_line_feed(byte: &u8) -> bool
    ensures { result ≡ spelling.is_line_feed byte.now }
{
    *byte == b'\n'
}

// What stands between words.
fn is_blank(byte: &u8) -> bool
    ensures { result ≡ blank byte.now }
{
    matches!(*byte, b' ' | b'\t' | b'\r')
}

// A line without its comment.
pub(crate) fn without_comment(line: &[u8]) -> &[u8]
    ensures { result.now ≡ code_of line.now }
{
    line.split(|byte| *byte == b'#').next().unwrap()
}

// The first word of a line that has a number, or nothing where there is none.
pub fn statement_word(text: &[u8], line: usize) -> &[u8]
    ensures { result.now ≡ first (words_of (code_of (slice_index_or (lines_of text.now) (line - 1) []))) }
{
    match text.split(is_line_feed).nth(line.saturating_sub(1)) {
        Some(bytes) => first_word(bytes),
        None => &[],
    }
}

// The first word of a line, or nothing where there is none.
fn first_word(line: &[u8]) -> &[u8]
    ensures { result.now ≡ first (words_of (code_of line.now)) }
{
    match next_word(without_comment(line)) {
        Some((word, _)) => word,
        None => &[],
    }
}

// The first word, and what stands behind it. Both ends are looked for: a `split` would give an empty piece for each blank of a
// long run.
pub(crate) fn next_word(bytes: &[u8]) -> Option<(&[u8], &[u8])>
    ensures { MatchOption result (words_of bytes.now ≡ []) (λ p. words_of bytes.now ≡ p.0.now ∷ words_of p.1.now) }
{
    let rest = &bytes[blanks_len(bytes)..];
    if rest.is_empty() {
        return None;
    }
    Some(rest.split_at(word_len(rest)))
}

// How many blanks stand before the first byte that is none.
fn blanks_len(bytes: &[u8]) -> usize
    ensures value { result ≡ position_or_len (λ b. not (blank b)) bytes.now }
    ensures within { result ≤ length bytes.now }
{
    bytes
        .iter()
        .position(|byte| !is_blank(byte))
        .unwrap_or(bytes.len())
}

// How many bytes stand before the first blank.
fn word_len(bytes: &[u8]) -> usize
    ensures value { result ≡ position_or_len blank bytes.now }
    ensures within { result ≤ length bytes.now }
{
    bytes.iter().position(is_blank).unwrap_or(bytes.len())
}
