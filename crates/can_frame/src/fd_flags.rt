ghost use Rattle.std.specs.Prelude.{◌≡◌, ◌<◌, Some};
ghost use Rattle.can_frame.specs.Frames.{no_flags, has_no_flags, flags_number, flags_of};

/// The two flags of an FD frame: CANFD_BRS and CANFD_ESI of linux/can.h. Classic frames have neither flag.
#[derive(Debug, Clone, Copy, PartialEq, Eq)]
pub struct FdFlags {
    /// The bits after this flag, up to the end of the CRC, are sent at the data bit rate.
    pub brs: bool,
    /// The sender of the frame is error passive.
    pub esi: bool,
}

impl FdFlags {
    /// Neither flag is set.
    pub fn none() -> FdFlags
        ensures { result ≡ no_flags }
    {
        FdFlags {
            brs: false,
            esi: false,
        }
    }

    /// Returns the flags with this number: CANFD_BRS is 1, CANFD_ESI is 2. Returns `None` for numbers above 3.
    pub fn from_number(number: u8) -> Option<FdFlags>
        ensures { result ≡ flags_of number }
    {
        let (brs, esi) = match number {
            0 => (false, false),
            1 => (true, false),
            2 => (false, true),
            3 => (true, true),
            _ => return None,
        };
        Some(FdFlags { brs, esi })
    }

    /// The flags as a number from 0 to 3.
    pub fn number(self) -> u8
        ensures number { result ≡ flags_number self }
        ensures below { result < 4 }
        ensures back { flags_of result ≡ Some self }
    {
        match (self.brs, self.esi) {
            (false, false) => 0,
            (true, false) => 1,
            (false, true) => 2,
            (true, true) => 3,
        }
    }

    /// Whether neither flag is set.
    pub fn is_none(self) -> bool
        ensures { result ≡ has_no_flags self }
    {
        !self.brs && !self.esi
    }
}
