ghost use Rattle.std.specs.Prelude.{◌≡◌, OkIff};
ghost use Rattle.can_wire.specs.Times.{AreBitRates};
ghost use Rattle.can_wire.specs.Timings.{timing_of, frame_nanos_of, attempt_nanos_of, idle_nanos_of};

use crate::attempts::attempt_bits;
use crate::frames::frame_bits;
use crate::rates::{BadBitRates, Rates};
use crate::wire_bits::WireBits;
use can_attempt::Class;
use can_fault::Verdict;
use can_frame::Frame;
use std::marker::Model;

/// The number of bits of an attempt for which no frame is waiting.
const IDLE_BITS: u32 = 11;

/// The bit rates of a bus, from which the duration of frames and attempts follows.
#[derive(Debug, Clone, Copy, PartialEq, Eq)]
pub struct Timing {
    rates: Rates,
}

impl Model for Timing {
    ghost use Rattle.can_wire.specs.Timings.{BusTiming};

    ghost Value = { BusTiming };

    ghost view = { λ t. record { rates = t.rates } };

    ghost inverse = { λ v. record { rates = v.rates } };
}

impl Timing {
    /// Creates a timing with a nominal bit rate and a data bit rate, to which FD frames with BRS switch. Without a data bit rate
    /// all bits are sent at the nominal bit rate.
    pub fn new(nominal: u32, fast: Option<u32>) -> Result<Timing, BadBitRates>
        ensures { OkIff result (AreBitRates (timing_of nominal fast).rates)
            (timing_of nominal fast) }
    {
        Ok(Timing {
            rates: Rates::new(nominal, fast.unwrap_or(nominal))?,
        })
    }

    /// The nominal bit rate, in bits a second.
    pub fn nominal(self) -> u32
        ensures { result ≡ self.rates.nominal }
    {
        self.rates.nominal()
    }

    /// The data bit rate, in bits a second. It is the nominal bit rate if the bus has no data bit rate.
    pub fn fast(self) -> u32
        ensures { result ≡ self.rates.fast }
    {
        self.rates.fast()
    }

    /// Returns how many nanoseconds a frame takes, from start of frame to end of frame, rounded up.
    pub fn frame_nanos(self, frame: &Frame) -> u64
        ensures { result ≡ frame_nanos_of self frame.now }
    {
        self.rates.nanos(frame_bits(frame))
    }

    /// Returns how many nanoseconds an attempt to send a frame takes, from start of frame until the next attempt may begin, rounded
    /// up. `verdict` is the fault that struck the attempt, and `class` is its outcome.
    pub fn attempt_nanos(self, frame: &Frame, class: Class, verdict: Verdict) -> u64
        ensures { result ≡ attempt_nanos_of self frame.now class verdict }
    {
        self.rates.nanos(attempt_bits(frame, class, verdict))
    }

    /// Returns how many nanoseconds an attempt takes if no frame is waiting and such attempts take time: 11 bits, rounded up.
    pub fn idle_nanos(self) -> u64
        ensures { result ≡ idle_nanos_of self }
    {
        self.rates.nanos(WireBits {
            nominal: IDLE_BITS,
            fast: 0,
        })
    }
}
