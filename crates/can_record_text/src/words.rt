ghost use Rattle.std.specs.Prelude.{◌≡◌, ◌≤◌, ◌++◌, IsTrue, List, length, ℕ};
ghost use Rattle.std.specs.Str.{bytes_eq};
ghost use Rattle.can_record_text.specs.Texts.{StartsWith};
ghost use Rattle.can_record_text.specs.inner.Reading.{begins_with};
ghost use Rattle.can_record_text.specs.inner.Words.{word, after};

/// Returns the first word of a text, and the rest after the byte that ends the word.
pub fn next_word(text: &[u8]) -> (&[u8], &[u8])
    ensures word { result.0.now ≡ word text.now }
    ensures after { result.1.now ≡ after text.now }
    ensures within { length result.0.now ≤ length text.now }
{
    for end in 0..text.len() {
        if text[end] <= 32 {
            return (&text[..end], &text[end + 1..]);
        }
    }
    (text, &text[text.len()..])
}

/// Returns whether two words are the same.
pub fn same_word(a: &[u8], b: &[u8]) -> bool
    ensures { result ≡ bytes_eq a.now b.now }
{
    a == b
}

/// Returns whether the text begins with `front`.
pub fn begins(text: &[u8], front: &[u8]) -> bool
    ensures yes { IsTrue result → StartsWith front.now text.now }
    ensures no { (rest : List ℕ) → text.now ≡ front.now ++ rest → IsTrue result }
    ensures value { result ≡ begins_with front.now text.now }
    ensures within { IsTrue result → length front.now ≤ length text.now }
{
    text.starts_with(front)
}
