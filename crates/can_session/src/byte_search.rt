ghost use Rattle.std.specs.Prelude.{◌≡◌, ◌<◌, ◌==◌, length, position, IfSome};

use memchr::memchr;

/// Returns the index of the first `mark` in a string of bytes, if there is one.
pub fn place_of(text: &[u8], mark: u8) -> Option<usize>
    ensures place { result ≡ position (λ b. b == mark) text.now }
    ensures within { IfSome result (λ n. n < length text.now) }
{
    memchr(mark, text)
}
