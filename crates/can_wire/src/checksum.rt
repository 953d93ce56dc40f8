ghost use Rattle.std.specs.Prelude.{◌≡◌, ◌≤◌, ◌<◌, ◌++◌, replicate};
ghost use Rattle.can_wire.specs.Division.{check_of, generator_15};
ghost use Rattle.can_wire.specs.FrameBits.{byte_bits};
ghost use Rattle.can_wire.specs.inner.Sending.{bits_of, shifted, shifted_all};

use crate::bits::Bits;
use std::marker::Model;

/// The number of bits of a classic frame's CRC.
const WIDTH: u32 = 15;

/// The generator polynomial of a classic frame's CRC, x^15 + x^14 + x^10 + x^8 + x^7 + x^4 + x^3 + 1, without its first term.
const GENERATOR: u16 = 0x4599;

/// The shift register that computes the CRC of a classic frame. Only its lowest 15 bits matter.
#[derive(Drop)]
struct Register {
    bits: u16,
}

impl Model for Register {
    ghost use Rattle.std.specs.Prelude.{ℕ, List};
    ghost use Rattle.can_wire.specs.inner.Sending.{register_bits};

    ghost Value = { List ℕ };

    ghost view = { λ r. register_bits r.bits };
}

impl Register {
    /// Returns the register before the first bit.
    #[tactic(auto, using(crate::proofs::Divided::register_zero))]
    fn new() -> Register
        ensures { result ≡ replicate 15 0 }
    {
        Register { bits: 0 }
    }

    /// Shifts one bit into the register.
    fn take_bit(&mut self, bit: u8)
        requires { bit < 2 }
        ensures { self.new ≡ shifted generator_15 bit self.old }
    {
        let first = (self.bits >> (WIDTH - 1)) & 1;
        self.bits <<= 1;
        if u16::from(bit) != first {
            self.bits ^= GENERATOR;
        }
    }

    /// Shifts bits into the register.
    fn take(&mut self, bits: Bits)
        requires { bits.count ≤ 64 }
        ensures { self.new ≡ shifted_all generator_15 (bits_of bits) self.old }
    {
        for place in (0..bits.count).rev() {
            self.take_bit(bits.bit(place));
        }
    }
}

/// Returns the CRC sequence of the bits in `head` followed by `bytes`.
pub(crate) fn check_sequence(head: Bits, bytes: &[u8]) -> Bits
    requires { head.count ≤ 64 }
    ensures bits { bits_of result ≡ check_of generator_15 (bits_of head ++ byte_bits bytes.now) }
    ensures count { result.count ≡ 15 }
{
    let mut register = Register::new();
    register.take(head);
    for byte in bytes {
        register.take(Bits::none().then(8, u32::from(*byte)));
    }
    Bits::none().then(WIDTH, u32::from(register.bits))
}
