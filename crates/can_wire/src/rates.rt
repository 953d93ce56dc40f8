ghost use Rattle.std.specs.Prelude.{◌≡◌, ◌<◌, ◌*◌, ◌^◌, OkIff};
ghost use Rattle.can_wire.specs.Times.{AreBitRates, nanos_of, rates_of};

use crate::wire_bits::WireBits;
use std::marker::Model;
use thiserror::Error;

/// The bit rates are outside the range that a bus may have.
#[derive(Debug, Clone, Copy, PartialEq, Eq, Error)]
#[error("bad bit rates")]
pub struct BadBitRates;

/// The bit rates of a bus: the nominal bit rate, and the bit rate in the data phase of FD frames with BRS.
#[derive(Debug, Clone, Copy, PartialEq, Eq)]
pub struct Rates {
    nominal: u32,
    fast: u32,
}

impl Model for Rates {
    ghost use Rattle.can_wire.specs.Times.{BitRates, AreBitRates, rates_of};

    ghost Value = { BitRates };

    ghost view = { λ r. rates_of r.nominal r.fast };

    ghost invariant = { λ r. AreBitRates (rates_of r.nominal r.fast) };

    ghost inverse = { λ v. record { nominal = v.nominal; fast = v.fast } };
}

impl Rates {
    /// Creates bit rates. The nominal bit rate is 5,000 to 1,000,000 bits a second. The data bit rate is at least the nominal bit
    /// rate and at most 20,000,000 bits a second.
    pub fn new(nominal: u32, fast: u32) -> Result<Rates, BadBitRates>
        ensures { OkIff result (AreBitRates (rates_of nominal fast)) (rates_of nominal fast) }
    {
        if nominal < 5_000 || nominal > 1_000_000 || fast < nominal || fast > 20_000_000 {
            return Err(BadBitRates);
        }
        Ok(Rates { nominal, fast })
    }

    /// The nominal bit rate, in bits a second.
    pub fn nominal(self) -> u32
        ensures { result ≡ self.nominal }
    {
        self.nominal
    }

    /// The data bit rate, in bits a second.
    pub fn fast(self) -> u32
        ensures { result ≡ self.fast }
    {
        self.fast
    }

    /// Returns how many nanoseconds these bits take, rounded up.
    pub fn nanos(self, bits: WireBits) -> u64
        ensures { result ≡ nanos_of bits self }
    {
        let product = times(self.nominal, self.fast);
        let bits = times(bits.nominal, self.fast) + times(bits.fast, self.nominal);
        ((bits * 1_000_000_000 + (product - 1)) / product) as u64
    }
}

/// Returns a product that cannot overflow.
#[tactic(auto, using(crate::proofs::Rounded::product_below))]
fn times(a: u32, b: u32) -> u128
    ensures product { result ≡ a * b }
    ensures below { result < 2 ^ 64 }
{
    u128::from(a) * u128::from(b)
}
