ghost use Rattle.std.specs.Prelude.{◌≡◌, ◌-◌, ◌∷◌, replicate};
ghost use Rattle.can_frame.specs.Arbitration.{low_bits};
ghost use Rattle.can_wire.specs.FrameBits.{bit_of};
ghost use Rattle.can_wire.specs.inner.Sending.{shifted, shifted_all};
ghost use Rattle.can_bits.specs.Sent.{levels};
ghost use Rattle.can_bits.specs.inner.Checking.{IsGenerator, terms_of};

use crate::bit::Bit;

/// A generator polynomial: its degree, and the mask of all terms below the highest term.
#[derive(Debug, Clone, Copy)]
pub(crate) struct Generator {
    pub width: u32,
    pub terms: u32,
}

/// The generator of classic frames, x^15 + x^14 + x^10 + x^8 + x^7 + x^4 + x^3 + 1.
pub(crate) const CRC_15: Generator = Generator {
    width: 15,
    terms: 0x4599,
};

/// The generator of FD frames up to 16 bytes, x^17 + x^16 + x^14 + x^13 + x^11 + x^6 + x^4 + x^3 + x + 1.
pub(crate) const CRC_17: Generator = Generator {
    width: 17,
    terms: 0x1_685B,
};

/// The generator of longer FD frames, x^21 + x^20 + x^13 + x^11 + x^7 + x^4 + x^3 + 1.
pub(crate) const CRC_21: Generator = Generator {
    width: 21,
    terms: 0x10_2899,
};

impl Generator {
    /// Returns a shift register that contains a one followed by zeros.
    pub fn one(self) -> u32
        requires { IsGenerator self }
        ensures { low_bits self.width result ≡ 1 ∷ replicate (self.width - 1) 0 }
    {
        1 << (self.width - 1)
    }

    /// Returns the shift register after one more bit is shifted in.
    fn after_bit(self, register: u32, is_one: bool) -> u32
        requires { IsGenerator self }
        ensures { low_bits self.width result
            ≡ shifted (terms_of self) (bit_of is_one) (low_bits self.width register) }
    {
        let is_first = (register >> (self.width - 1)) & 1 == 1;
        let moved = register << 1;
        if is_one == is_first {
            moved
        } else {
            moved ^ self.terms
        }
    }

    /// Returns the shift register after these bits are shifted in.
    pub fn after(self, register: u32, bits: &[Bit]) -> u32
        requires { IsGenerator self }
        ensures { low_bits self.width result
            ≡ shifted_all (terms_of self) (levels bits.now) (low_bits self.width register) }
    {
        let mut register = register;
        for bit in bits {
            register = self.after_bit(register, bit.is_recessive);
        }
        register
    }
}
