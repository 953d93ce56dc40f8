ghost use Rattle.std.specs.Prelude.{◌≡◌, ◌<◌, ◌^◌, OkIff};
ghost use Rattle.can_frame.specs.Frames.{ErrorMessage};

use std::marker::Model;
use thiserror::Error;

/// The error class does not fit 29 bits.
#[derive(Debug, Clone, Copy, PartialEq, Eq, Error)]
#[error("class too large")]
pub struct ClassTooLarge;

/// An error message frame: an error class of 29 bits and 8 bytes of data (linux/can/error.h). It reports an error to sockets and is
/// never sent on the bus.
#[derive(Debug, Clone, Copy, PartialEq, Eq)]
pub struct ErrorFrame {
    class: u32,
    bytes: [u8; 8],
}

impl Model for ErrorFrame {
    ghost use Rattle.std.specs.Prelude.{◌<◌, ◌^◌};
    ghost use Rattle.can_frame.specs.Frames.{ErrorMessage};

    ghost Value = { ErrorMessage };

    ghost view = { λ e. record { class = e.class; bytes = e.bytes } };

    ghost invariant = { λ e. e.class < 2 ^ 29 };

    ghost inverse = { λ v. record { class = v.class; bytes = v.bytes } };
}

impl ErrorFrame {
    /// Creates an error message frame with a class from `0x00000000` to `0x1FFFFFFF`.
    pub fn new(class: u32, bytes: [u8; 8]) -> Result<ErrorFrame, ClassTooLarge>
        ensures { OkIff result (class < 2 ^ 29) (record { class = class; bytes = bytes }) }
    {
        if class >= 0x2000_0000 {
            return Err(ClassTooLarge);
        }
        Ok(ErrorFrame { class, bytes })
    }

    /// The bits of the error class, without bit 29, which marks an error message frame.
    pub fn class(self) -> u32
        ensures class { result ≡ self.class }
        ensures below { result < 2 ^ 29 }
    {
        self.class
    }

    /// The eight data bytes.
    pub fn data(self) -> [u8; 8]
        ensures { result ≡ self.bytes }
    {
        self.bytes
    }
}
