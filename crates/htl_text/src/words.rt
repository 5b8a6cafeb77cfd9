//! The words of a line.
ghost use Rattle.std.specs.Prelude.{◌≡◌, ◌≤◌, ◌∷◌, [], length, not, position, MatchOption};
ghost use Rattle.std.specs.Prelude.{option_map};
ghost use Rattle.std.specs.Str.{bytes_eq};
ghost use Rattle.htl_text.specs.Fields.{after_bytes};
ghost use Rattle.htl_text.specs.Lines.{is_blank, is_skipped, words_of};
ghost use Rattle.htl_text.specs.Words.{word_end, word_start};

/// The first word of a line, and the bytes after it.
pub(crate) fn first_word(line: &[u8]) -> Option<(&[u8], &[u8])>
    ensures { MatchOption result
        (words_of line.now ≡ [])
        (λ first. words_of line.now ≡ first.0.now ∷ words_of first.1.now) }
{
    let (_, rest) = line.split_at(word_start(line));
    if rest.is_empty() {
        return None;
    }
    Some(rest.split_at(word_end(rest)))
}

/// The number of blanks at the start.
#[tactic(auto, using(crate::proofs::FirstWord::word_start_found))]
fn word_start(line: &[u8]) -> usize
    ensures value { result ≡ word_start line.now }
    ensures bound { result ≤ length line.now }
{
    first_visible(line).unwrap_or(line.len())
}

fn first_visible(line: &[u8]) -> Option<usize>
    ensures { result ≡ position (λ b. not (is_blank b)) line.now }
{
    line.iter().position(|byte| !is_blank(*byte))
}

/// The place of the first blank, or the length.
#[tactic(auto, using(crate::proofs::FirstWord::word_end_found))]
fn word_end(line: &[u8]) -> usize
    ensures value { result ≡ word_end line.now }
    ensures bound { result ≤ length line.now }
{
    first_blank(line).unwrap_or(line.len())
}

fn first_blank(line: &[u8]) -> Option<usize>
    ensures { result ≡ position is_blank line.now }
{
    line.iter().position(|byte| is_blank(*byte))
}

/// Whether the byte separates words.
fn is_blank(byte: u8) -> bool
    ensures { result ≡ is_blank byte }
{
    matches!(byte, b' ' | b'\t')
}

/// Whether a line says nothing.
#[tactic(auto, unfolding(crate::specs::Lines::is_skipped))]
pub(crate) fn is_skipped(line: &[u8]) -> bool
    ensures { result ≡ is_skipped (words_of line.now) }
{
    match first_word(line) {
        Some((word, _)) => word.starts_with(b"#"),
        None => true,
    }
}

/// Whether two words are equal.
pub(crate) fn is_word(word: &[u8], other: &[u8]) -> bool
    ensures { result ≡ bytes_eq word.now other.now }
{
    word == other
}

/// The bytes of a word after these, if it begins with them.
#[tactic(auto, unfolding(crate::specs::Fields::after_bytes))]
pub(crate) fn after_bytes<'a>(word: &'a [u8], bytes: &[u8]) -> Option<&'a [u8]>
    ensures { option_map (λ rest. rest.now) result ≡ after_bytes bytes.now word.entry.now }
{
    word.strip_prefix(bytes)
}
