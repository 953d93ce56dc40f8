ghost use Rattle.std.specs.Prelude.{◌≡◌};
ghost use Rattle.can_record_text.specs.inner.Numerals.{with_digit, long_in};

use can_frame::read_decimal;

/// Returns a number with one more decimal digit, or `None` if it exceeds 64 bits.
fn with_digit(front: u64, last: u64) -> Option<u64>
    ensures { result ≡ with_digit front last }
{
    front.checked_mul(10)?.checked_add(last)
}

/// Reads a decimal number of 64 bits. Some numbers of 20 digits exceed 64 bits, so the last digit is read separately.
#[tactic(auto, unfolding(crate::specs::inner::Numerals::long_in))]
pub fn long_number(word: &[u8]) -> Option<u64>
    ensures { result ≡ long_in word.now }
{
    if word.len() <= 19 {
        return read_decimal(word, 19);
    }
    let place = word.len() - 1;
    let front = read_decimal(&word[..place], 19)?;
    let last = read_decimal(&word[place..], 1)?;
    with_digit(front, last)
}
