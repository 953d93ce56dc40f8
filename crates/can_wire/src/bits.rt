ghost use Rattle.std.specs.Prelude.{◌≡◌, ◌<◌, ◌≤◌, ◌+◌, [], ◌++◌};
ghost use Rattle.std.specs.Int.{bit_at};
ghost use Rattle.can_frame.specs.Arbitration.{low_bits};
ghost use Rattle.can_wire.specs.inner.Sending.{bits_of};

/// A sequence of at most 64 bits. The highest bit of `number` is sent first.
#[derive(Clone, Copy)]
pub(crate) struct Bits {
    pub count: u32,
    pub number: u64,
}

impl Bits {
    /// Returns the empty sequence.
    pub fn none() -> Bits
        ensures bits { bits_of result ≡ [] }
        ensures count { result.count ≡ 0 }
    {
        Bits {
            count: 0,
            number: 0,
        }
    }

    /// Returns these bits followed by the lowest `count` bits of `number`, highest bit first.
    pub fn then(self, count: u32, number: u32) -> Bits
        requires room { self.count + count ≤ 64 }
        requires narrow { count ≤ 32 }
        ensures bits { bits_of result ≡ bits_of self ++ low_bits count number }
        ensures count { result.count ≡ self.count + count }
    {
        let low = u64::from(number) & ((1 << count) - 1);
        Bits {
            count: self.count + count,
            number: (self.number << count) | low,
        }
    }

    /// Returns the bit that is followed by `after` other bits.
    pub fn bit(self, after: u32) -> u8
        requires { after < 64 }
        ensures bit { result ≡ bit_at self.number after }
        ensures below { result < 2 }
    {
        ((self.number >> after) & 1) as u8
    }
}
