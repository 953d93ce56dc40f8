ghost use Rattle.std.specs.Prelude.{◌≡◌, ◌≤◌, ◌<◌, ◌^◌, IfSome};
ghost use Rattle.can_frame.specs.Numbers.{digit_in, number_in};

/// Reads a number of 1 to `most` decimal digits. Returns `None` for every other word. `most` is at most 19.
pub fn read_decimal(word: &[u8], most: usize) -> Option<u64>
    requires { most ≤ 19 }
    ensures value { result ≡ number_in 10 most word.now }
    ensures small { IfSome result (λ n. n < 10 ^ most) }
{
    read_number::<10>(word, most)
}

/// Reads a number of 1 to `most` hexadecimal digits of either case. Returns `None` for every other word. `most` is at most 8.
pub fn read_hexadecimal(word: &[u8], most: usize) -> Option<u32>
    requires { most ≤ 8 }
    ensures value { result ≡ number_in 16 most word.now }
    ensures small { IfSome result (λ n. n < 16 ^ most) }
{
    let number = read_number::<16>(word, most)?;
    Some(number as u32)
}

/// Reads a number of 1 to `most` digits in base `BASE`.
fn read_number<const BASE: u64>(word: &[u8], most: usize) -> Option<u64>
    requires low { 2 ≤ BASE }
    requires fits { BASE ^ most ≤ 2 ^ 64 }
    ensures value { result ≡ number_in BASE most word.now }
    ensures small { IfSome result (λ n. n < BASE ^ most) }
{
    if word.is_empty() || most < word.len() {
        return None;
    }
    let mut number = 0;
    for byte in word {
        number = number * BASE + read_digit(*byte, BASE)?;
    }
    Some(number)
}

/// Returns the value of a digit in this base, in either case, or `None` if the byte is no such digit. The value is at most 15.
pub fn read_digit(byte: u8, base: u64) -> Option<u64>
    ensures value { result ≡ digit_in base byte }
    ensures below { IfSome result (λ v. v < base) }
{
    let value = match byte {
        b'0'..=b'9' => u64::from(byte - b'0'),
        b'A'..=b'F' => u64::from(byte - b'A') + 10,
        b'a'..=b'f' => u64::from(byte - b'a') + 10,
        _ => return None,
    };
    if value < base { Some(value) } else { None }
}
