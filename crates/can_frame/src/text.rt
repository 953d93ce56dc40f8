ghost use Rattle.std.specs.Prelude.{◌≡◌, ◌≤◌, ◌<◌, ◌+◌, ◌*◌, ◌^◌, ◌++◌, ◌∷◌, [], length};
ghost use Rattle.std.specs.Fmt.{decimal};
ghost use Rattle.can_frame.specs.FrameText.{digits, pairs, id_text, upper};
ghost use Rattle.can_frame.specs.Moments.{moment_text};

use crate::can_id::CanId;
use crate::digit_writing::{write_decimals, write_hexadecimals, write_pairs};
use crate::moment::Moment;
use std::marker::Model;

/// A text of at most `N` bytes, without heap memory.
#[derive(Debug, Drop)]
pub struct Text<const N: usize> {
    bytes: [u8; N],
    len: usize,
}

impl<const N: usize> Model for Text<N> {
    ghost use Rattle.std.specs.Prelude.{ℕ, List, take, ◌≤◌};

    ghost Value = { List ℕ };

    ghost view = { λ t. take t.len t.bytes };

    ghost invariant = { λ t. t.len ≤ N };
}

impl<const N: usize> Text<N> {
    /// Returns the empty text.
    pub fn new() -> Text<N>
        ensures { result ≡ [] }
    {
        Text {
            bytes: [0; N],
            len: 0,
        }
    }

    /// Makes the text empty. Its bytes are not cleared, so a loop can reuse the text at no cost.
    pub fn clear(&mut self)
        ensures { self.new ≡ [] }
    {
        self.len = 0;
    }

    /// The bytes of the text.
    pub fn as_bytes(&self) -> &[u8]
        ensures { result.now ≡ self.now }
    {
        &self.bytes[..self.len]
    }

    /// Appends one byte.
    pub fn push(&mut self, byte: u8)
        requires { length self.old < N }
        ensures text { self.new ≡ self.old ++ byte ∷ [] }
        ensures len { length self.new ≡ length self.old + 1 }
    {
        self.bytes[self.len] = byte;
        self.len += 1;
    }

    /// Appends these bytes.
    pub fn push_all(&mut self, more: &[u8])
        requires { length self.old + length more.now ≤ N }
        ensures text { self.new ≡ self.old ++ more.now }
        ensures len { length self.new ≡ length self.old + length more.now }
    {
        let end = self.len + more.len();
        let all = &mut self.bytes[..];
        all[self.len..end].copy_from_slice(more);
        self.len = end;
    }

    /// Appends the last `count` hexadecimal digits of a number, in upper case.
    pub fn push_hex(&mut self, count: usize, number: u64)
        requires { length self.old + count ≤ N }
        ensures text { self.new ≡ self.old ++ digits 16 count number }
        ensures len { length self.new ≡ length self.old + count }
    {
        let end = self.len + count;
        let all = &mut self.bytes[..];
        write_hexadecimals(number, &mut all[self.len..end]);
        self.len = end;
    }

    /// Appends the last `count` decimal digits of a number.
    pub fn push_decimals(&mut self, count: usize, number: u64)
        requires { length self.old + count ≤ N }
        ensures text { self.new ≡ self.old ++ digits 10 count number }
        ensures len { length self.new ≡ length self.old + count }
    {
        let end = self.len + count;
        let all = &mut self.bytes[..];
        write_decimals(number, &mut all[self.len..end]);
        self.len = end;
    }

    /// Appends a number in decimal, without leading zeros.
    #[tactic(auto, using(crate::proofs::Lengths::count_fits))]
    pub fn push_count(&mut self, number: u64)
        requires room { length self.old + 20 ≤ N }
        ensures text { self.new ≡ self.old ++ decimal number }
        ensures len { length self.new ≤ length self.old + 20 }
    {
        self.push_number(number);
    }

    /// Appends a number in decimal. There only has to be room for the digits of this number.
    #[tactic(auto, using(crate::proofs::Decimals::eight_pushed, crate::proofs::Decimals::eight_longer, crate::proofs::Decimals::sixteen_pushed, crate::proofs::Decimals::sixteen_longer))]
    fn push_number(&mut self, number: u64)
        requires { length self.old + length (decimal number) ≤ N }
        ensures text { self.new ≡ self.old ++ decimal number }
        ensures len { length self.new ≡ length self.old + length (decimal number) }
    {
        match number {
            0..=99_999_999 => self.push_up_to_eight(number),
            100_000_000..=9_999_999_999_999_999 => {
                self.push_up_to_eight(number / 100_000_000);
                self.push_decimals(8, number % 100_000_000);
            }
            _ => {
                self.push_up_to_eight(number / 10_000_000_000_000_000);
                self.push_decimals(16, number % 10_000_000_000_000_000);
            }
        }
    }

    /// Appends a number of at most eight decimal digits.
    #[tactic(auto, using(crate::proofs::Decimals::four_pushed, crate::proofs::Decimals::four_longer))]
    fn push_up_to_eight(&mut self, number: u64)
        requires small { number < 10 ^ 8 }
        requires room { length self.old + length (decimal number) ≤ N }
        ensures text { self.new ≡ self.old ++ decimal number }
        ensures len { length self.new ≡ length self.old + length (decimal number) }
    {
        if number < 10_000 {
            self.push_up_to_four(number);
        } else {
            self.push_up_to_four(number / 10_000);
            self.push_decimals(4, number % 10_000);
        }
    }

    /// Appends a number of at most four decimal digits.
    #[tactic(auto, using(crate::proofs::Decimals::one_digit, crate::proofs::Decimals::two_digits, crate::proofs::Decimals::three_digits, crate::proofs::Decimals::four_digits))]
    fn push_up_to_four(&mut self, number: u64)
        requires small { number < 10 ^ 4 }
        requires room { length self.old + length (decimal number) ≤ N }
        ensures text { self.new ≡ self.old ++ decimal number }
        ensures len { length self.new ≡ length self.old + length (decimal number) }
    {
        match number {
            0..=9 => self.push_decimals(1, number),
            10..=99 => self.push_decimals(2, number),
            100..=999 => self.push_decimals(3, number),
            _ => self.push_decimals(4, number),
        }
    }

    /// Appends an identifier: 3 hexadecimal digits, or 8 if the identifier has 29 bits.
    pub fn push_id(&mut self, id: CanId)
        requires { length self.old + 8 ≤ N }
        ensures text { self.new ≡ self.old ++ id_text id }
        ensures len { length self.new ≤ length self.old + 8 }
    {
        let number = u64::from(id.number());
        if id.is_extended() {
            self.push_hex(8, number);
        } else {
            self.push_hex(3, number);
        }
    }

    /// Appends a moment: seconds without leading zeros, a point and 6 digits of microseconds.
    #[tactic(auto, using(crate::proofs::Lengths::seconds_fit))]
    pub fn push_moment(&mut self, moment: Moment)
        requires { length self.old + 17 ≤ N }
        ensures text { self.new ≡ self.old ++ moment_text moment }
        ensures len { length self.new ≤ length self.old + 17 }
    {
        let micros = moment.micros();
        self.push_number(micros / 1_000_000);
        self.push(b'.');
        self.push_decimals(6, micros % 1_000_000);
    }

    /// Appends each byte as two upper-case hexadecimal digits.
    pub fn push_pairs(&mut self, bytes: &[u8])
        requires { length self.old + 2 * length bytes.now ≤ N }
        ensures text { self.new ≡ self.old ++ pairs bytes.now }
        ensures len { length self.new ≡ length self.old + 2 * length bytes.now }
    {
        let end = self.len + 2 * bytes.len();
        let all = &mut self.bytes[..];
        write_pairs(bytes, &mut all[self.len..end]);
        self.len = end;
    }

    /// Appends these bytes, with letters in upper case.
    pub(crate) fn push_upper(&mut self, more: &[u8])
        requires { length self.old + length more.now ≤ N }
        ensures text { self.new ≡ self.old ++ upper more.now }
        ensures len { length self.new ≡ length self.old + length more.now }
    {
        let end = self.len + more.len();
        let all = &mut self.bytes[..];
        copy_upper(more, &mut all[self.len..end]);
        self.len = end;
    }
}

/// Copies bytes to `room`, with letters in upper case.
fn copy_upper(bytes: &[u8], room: &mut [u8])
    requires { length room.old ≡ length bytes.now }
    ensures text { room.new ≡ upper bytes.now }
    ensures len { length room.new ≡ length bytes.now }
{
    room.copy_from_slice(bytes);
    room.make_ascii_uppercase();
}
