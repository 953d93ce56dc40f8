ghost use Rattle.std.specs.Prelude.{◌≡◌, ◌+◌, ◌<◌, ◌^◌};
ghost use Rattle.can_wire.specs.FrameBits.{then_nominal};

/// Numbers of bits on the wire, one for each bit rate at which they are sent.
#[derive(Debug, Clone, Copy, PartialEq, Eq)]
pub struct WireBits {
    /// The number of bits at the nominal bit rate.
    pub nominal: u32,
    /// The number of bits at the data bit rate of FD frames.
    pub fast: u32,
}

impl WireBits {
    /// Adds `count` bits at the nominal bit rate.
    pub(crate) fn then_nominal(self, count: u32) -> WireBits
        requires { self.nominal + count < 2 ^ 32 }
        ensures { result ≡ then_nominal self count }
    {
        WireBits {
            nominal: self.nominal + count,
            fast: self.fast,
        }
    }
}
