ghost use Rattle.std.specs.Prelude.{◌≡◌, ◌<◌, ◌^◌, ℕ, true, false, OkIff};
ghost use Rattle.can_frame.specs.Frames.{Identifier, IsIdentifier};

use std::marker::Model;
use thiserror::Error;

/// The number is too large for an identifier of its kind.
#[derive(Debug, Clone, Copy, PartialEq, Eq, Error)]
#[error("id too large")]
pub struct IdTooLarge;

/// A frame's identifier: 11 bits (standard) or 29 bits (extended).
#[derive(Debug, Clone, Copy, PartialEq, Eq)]
pub struct CanId {
    extended: bool,
    number: u32,
}

impl Model for CanId {
    ghost use Rattle.std.specs.Prelude.{ℕ, ◌<◌, ◌^◌, if◌then◌else◌};
    ghost use Rattle.can_frame.specs.Frames.{Identifier};

    ghost Value = { Identifier };

    ghost view = { λ i. record { extended = i.extended; number = i.number } };

    ghost invariant = { λ i. i.number < (if i.extended then 2 ^ 29 else 2 ^ 11) };

    ghost inverse = { λ v. record { extended = v.extended; number = v.number } };
}

impl CanId {
    /// An identifier of 11 bits, `0x000` to `0x7FF`.
    pub fn standard(number: u16) -> Result<CanId, IdTooLarge>
        ensures { OkIff result (number < 2 ^ 11) (record { extended = false; number = number }) }
    {
        if number >= 0x800 {
            return Err(IdTooLarge);
        }
        Ok(CanId {
            extended: false,
            number: u32::from(number),
        })
    }

    /// An identifier of 29 bits, `0x00000000` to `0x1FFFFFFF`.
    pub fn extended(number: u32) -> Result<CanId, IdTooLarge>
        ensures { OkIff result (number < 2 ^ 29) (record { extended = true; number = number }) }
    {
        if number >= 0x2000_0000 {
            return Err(IdTooLarge);
        }
        Ok(CanId {
            extended: true,
            number,
        })
    }

    /// Whether the identifier has 29 bits.
    pub fn is_extended(self) -> bool
        ensures { result ≡ self.extended }
    {
        self.extended
    }

    /// The number of the identifier, without flag bits.
    pub fn number(self) -> u32
        ensures number { result ≡ self.number }
        ensures below { IsIdentifier self }
    {
        self.number
    }
}
