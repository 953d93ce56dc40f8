ghost use Rattle.std.specs.Prelude.{◌≡◌, ◌==◌, ◌≤◌, ◌<◌, [], false, length, take, drop, slice_index, MatchOption};
ghost use Rattle.can_proto.specs.Words.{BeginsWith, is_blank, front, words_after, words_of};

fn is_space(byte: u8) -> bool
    ensures { result ≡ is_blank byte }
{
    byte == b' ' || byte == b'\t' || byte == b'\r' || byte == b'\n'
}

/// Returns the number of blanks at the start of the text.
fn blanks(text: &[u8]) -> usize
    ensures within { result ≤ length text.now }
    ensures same { words_of text.now ≡ words_of (drop result text.now) }
    ensures stops { result < length text.now → is_blank (slice_index text.now result) ≡ false }
{
    for i in 0..text.len() {
        if !is_space(text[i]) {
            return i;
        }
    }
    text.len()
}

/// Returns the number of bytes before the first blank.
fn letters(text: &[u8]) -> usize
    ensures within { result ≤ length text.now }
    ensures word { front text.now ≡ take result text.now }
    ensures rest { words_after false text.now ≡ words_of (drop result text.now) }
{
    for i in 0..text.len() {
        if is_space(text[i]) {
            return i;
        }
    }
    text.len()
}

/// Returns the first word, and the text after it.
pub fn next_word(text: &[u8]) -> Option<(&[u8], &[u8])>
    ensures { MatchOption result (words_of text.now ≡ []) (λ found.
        BeginsWith found.0.now found.1.now text.now) }
{
    let start = blanks(text);
    if start == text.len() {
        return None;
    }
    let rest = &text[start..];
    let (word, after) = rest.split_at(letters(rest));
    Some((word, after))
}

/// Returns whether the text has this many words.
pub fn has_words(text: &[u8], count: usize) -> bool
    ensures { result ≡ (length (words_of text.now) == count) }
{
    let mut rest = text;
    for _ in 0..count {
        let Some((_, after)) = next_word(rest) else {
            return false;
        };
        rest = after;
    }
    next_word(rest).is_none()
}
