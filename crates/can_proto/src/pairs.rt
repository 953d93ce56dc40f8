//! Reads data and identifiers in their usual form: each word has its full number of digits and one space after it.
ghost use Rattle.std.specs.Prelude.{◌≡◌, ◌≤◌, ◌<◌, ◌∷◌, [], Ok, take, length, ok_or, MatchOption, IfSome};
ghost use Rattle.can_proto.specs.Words.{IsSolid, words_of};
ghost use Rattle.can_frame.specs.Numbers.{hex_digit, number_in};
ghost use Rattle.can_proto.specs.Commands.{bytes_of, id_of};

use crate::fault::ProtoFault;
use can_frame::CanId;

/// The table's entry for a byte that is not a digit.
const NO_DIGIT: u8 = 64;

/// The value of each hexadecimal digit, in lower or upper case, indexed by the byte of the digit.
#[rattlefmt::skip]
static DIGITS: [u8; 256] = [
    64, 64, 64, 64, 64, 64, 64, 64, 64, 64, 64, 64, 64, 64, 64, 64,
    64, 64, 64, 64, 64, 64, 64, 64, 64, 64, 64, 64, 64, 64, 64, 64,
    64, 64, 64, 64, 64, 64, 64, 64, 64, 64, 64, 64, 64, 64, 64, 64,
     0,  1,  2,  3,  4,  5,  6,  7,  8,  9, 64, 64, 64, 64, 64, 64,
    64, 10, 11, 12, 13, 14, 15, 64, 64, 64, 64, 64, 64, 64, 64, 64,
    64, 64, 64, 64, 64, 64, 64, 64, 64, 64, 64, 64, 64, 64, 64, 64,
    64, 10, 11, 12, 13, 14, 15, 64, 64, 64, 64, 64, 64, 64, 64, 64,
    64, 64, 64, 64, 64, 64, 64, 64, 64, 64, 64, 64, 64, 64, 64, 64,
    64, 64, 64, 64, 64, 64, 64, 64, 64, 64, 64, 64, 64, 64, 64, 64,
    64, 64, 64, 64, 64, 64, 64, 64, 64, 64, 64, 64, 64, 64, 64, 64,
    64, 64, 64, 64, 64, 64, 64, 64, 64, 64, 64, 64, 64, 64, 64, 64,
    64, 64, 64, 64, 64, 64, 64, 64, 64, 64, 64, 64, 64, 64, 64, 64,
    64, 64, 64, 64, 64, 64, 64, 64, 64, 64, 64, 64, 64, 64, 64, 64,
    64, 64, 64, 64, 64, 64, 64, 64, 64, 64, 64, 64, 64, 64, 64, 64,
    64, 64, 64, 64, 64, 64, 64, 64, 64, 64, 64, 64, 64, 64, 64, 64,
    64, 64, 64, 64, 64, 64, 64, 64, 64, 64, 64, 64, 64, 64, 64, 64,
];

/// Returns the value of a hexadecimal digit, or 64 for any other byte.
#[inline(always)]
fn digit_or_64(byte: u8) -> u8
    ensures value { MatchOption (hex_digit byte) (result ≡ 64) (λ v. (result ≡ v) × (v < 16)) }
    ensures below { result ≤ 64 }
    ensures solid { result < 16 → IsSolid byte }
{
    DIGITS[usize::from(byte)]
}

/// Returns the byte that two hexadecimal digits spell.
#[inline(always)]
pub fn byte_of(high: u8, low: u8) -> Option<u8>
    ensures value { result ≡ number_in 16 2 (high ∷ low ∷ []) }
    ensures solid { IfSome result (λ _. IsSolid high × IsSolid low) }
{
    let high = digit_or_64(high);
    let low = digit_or_64(low);
    if high + low >= NO_DIGIT {
        return None;
    }
    Some(high * 16 + low)
}

/// Returns the identifier that three hexadecimal digits spell.
#[inline(always)]
#[tactic(auto, unfolding(crate::specs::Commands::id_of))]
pub fn short_id(high: u8, middle: u8, low: u8) -> Option<CanId>
    ensures value { id_of (high ∷ middle ∷ low ∷ []) ≡ ok_or result ProtoFault.BadId }
    ensures solid { IfSome result (λ _. IsSolid high × IsSolid middle × IsSolid low) }
{
    let high = digit_or_64(high);
    let middle = digit_or_64(middle);
    let low = digit_or_64(low);
    if high + middle + low >= NO_DIGIT {
        return None;
    }
    match CanId::standard(u16::from(high) * 256 + u16::from(middle * 16 + low)) {
        Ok(id) => Some(id),
        Err(_) => None,
    }
}

/// Returns an array that begins with the bytes that `len` words spell. Each word must have two digits and one space after it, which
/// is the usual form of data.
#[inline(always)]
pub fn paired_bytes<const N: usize>(text: &[u8], len: usize) -> Option<[u8; N]>
    requires small { len ≤ N }
    requires few { len ≤ 64 }
    ensures count { IfSome result (λ bytes. length (words_of text.now) ≡ len) }
    ensures value { IfSome result (λ bytes. bytes_of (words_of text.now) ≡ Ok (take len bytes)) }
{
    if text.len() != 3 * len {
        return None;
    }
    let mut bytes = [0; N];
    for i in 0..len {
        if text[3 * i + 2] != b' ' {
            return None;
        }
        bytes[i] = byte_of(text[3 * i], text[3 * i + 1])?;
    }
    Some(bytes)
}
