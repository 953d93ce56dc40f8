ghost use Rattle.std.specs.Prelude.{◌≡◌, ◌≤◌, ◌*◌, length};
ghost use Rattle.can_frame.specs.FrameText.{digits, pairs};
ghost use Rattle.can_frame.specs.inner.DigitPairs.{HasPairs};

/// The two upper-case hexadecimal digits of each number below 256.
static HEXADECIMAL_PAIRS: [u8; 512] =
    *b"000102030405060708090A0B0C0D0E0F101112131415161718191A1B1C1D1E1F202122232425262728292A2B2C2D2E2F303132333435363738393A3B3C3D3E3F404142434445464748494A4B4C4D4E4F505152535455565758595A5B5C5D5E5F606162636465666768696A6B6C6D6E6F707172737475767778797A7B7C7D7E7F808182838485868788898A8B8C8D8E8F909192939495969798999A9B9C9D9E9FA0A1A2A3A4A5A6A7A8A9AAABACADAEAFB0B1B2B3B4B5B6B7B8B9BABBBCBDBEBFC0C1C2C3C4C5C6C7C8C9CACBCCCDCECFD0D1D2D3D4D5D6D7D8D9DADBDCDDDEDFE0E1E2E3E4E5E6E7E8E9EAEBECEDEEEFF0F1F2F3F4F5F6F7F8F9FAFBFCFDFEFF";

/// The two decimal digits of each number below 100.
static DECIMAL_PAIRS: [u8; 200] =
    *b"00010203040506070809101112131415161718192021222324252627282930313233343536373839404142434445464748495051525354555657585960616263646566676869707172737475767778798081828384858687888990919293949596979899";

/// Fills `room` with the last hexadecimal digits of a number, in upper case.
#[inline(always)]
pub(crate) fn write_hexadecimals(number: u64, room: &mut [u8])
    ensures text { room.new ≡ digits 16 (length room.old) number }
    ensures len { length room.new ≡ length room.old }
{
    write_digits::<16>(&HEXADECIMAL_PAIRS, number, room);
}

/// Fills `room` with the last decimal digits of a number.
#[inline(always)]
pub(crate) fn write_decimals(number: u64, room: &mut [u8])
    ensures text { room.new ≡ digits 10 (length room.old) number }
    ensures len { length room.new ≡ length room.old }
{
    write_digits::<10>(&DECIMAL_PAIRS, number, room);
}

/// Fills `room` with the last digits of a number, in upper case. The base is at most 16, and `table` holds the two digits of each
/// number below the base's square.
#[inline(always)]
fn write_digits<const BASE: u64>(table: &[u8], number: u64, room: &mut [u8])
    requires low { 2 ≤ BASE }
    requires high { BASE ≤ 16 }
    requires table { HasPairs BASE table.now }
    ensures text { room.new ≡ digits BASE (length room.old) number }
    ensures len { length room.new ≡ length room.old }
{
    let mut left = number;
    let mut place = room.len();
    while place >= 2 {
        let pair = (left % (BASE * BASE)) as usize * 2;
        left /= BASE * BASE;
        place -= 2;
        let (high, low) = (table[pair], table[pair + 1]);
        room[place] = high;
        room[place + 1] = low;
    }
    if place == 1 {
        room[0] = table[(left % BASE) as usize * 2 + 1];
    }
}

/// Writes each byte as two upper-case hexadecimal digits.
pub(crate) fn write_pairs(bytes: &[u8], room: &mut [u8])
    requires { length room.old ≡ 2 * length bytes.now }
    ensures text { room.new ≡ pairs bytes.now }
    ensures len { length room.new ≡ 2 * length bytes.now }
{
    for place in 0..bytes.len() {
        let pair = usize::from(bytes[place]) * 2;
        let (high, low) = (HEXADECIMAL_PAIRS[pair], HEXADECIMAL_PAIRS[pair + 1]);
        room[2 * place] = high;
        room[2 * place + 1] = low;
    }
}
