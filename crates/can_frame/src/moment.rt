ghost use Rattle.std.specs.Prelude.{◌≡◌, ◌<◌, ◌^◌, ℕ, OkIff};
ghost use Rattle.can_frame.specs.Moments.{moment_in};

use crate::numbers::read_decimal;
use std::marker::Model;
use thiserror::Error;

/// The moment is 10^16 microseconds or more.
#[derive(Debug, Clone, Copy, PartialEq, Eq, Error)]
#[error("moment too large")]
pub struct MomentTooLarge;

/// A point in time in microseconds, below 10^16.
#[derive(Debug, Clone, Copy, PartialEq, Eq)]
pub struct Moment {
    micros: u64,
}

impl Model for Moment {
    ghost use Rattle.std.specs.Prelude.{ℕ, ◌<◌, ◌^◌};

    ghost Value = { ℕ };

    ghost view = { λ m. m.micros };

    ghost invariant = { λ m. m.micros < 10 ^ 16 };

    ghost inverse = { λ n. record { micros = n } };
}

impl Moment {
    /// Creates a moment from a number of microseconds below 10^16.
    pub fn new(micros: u64) -> Result<Moment, MomentTooLarge>
        ensures { OkIff result (micros < 10 ^ 16) micros }
    {
        if micros >= 10_000_000_000_000_000 {
            return Err(MomentTooLarge);
        }
        Ok(Moment { micros })
    }

    /// The moment in microseconds.
    pub fn micros(self) -> u64
        ensures micros { result ≡ self }
        ensures below { result < 10 ^ 16 }
    {
        self.micros
    }
}

/// Reads a moment: 1 to 10 digits of seconds, a point and 6 digits of microseconds. Returns `None` for every other word.
#[tactic(auto, unfolding(crate::specs::Moments::moment_in))]
pub fn read_moment(word: &[u8]) -> Option<Moment>
    ensures { result ≡ moment_in word.now }
{
    if word.len() < 7 || word[word.len() - 7] != b'.' {
        return None;
    }
    let seconds = read_decimal(&word[..word.len() - 7], 10)?;
    let micros = read_decimal(&word[word.len() - 6..], 6)?;
    Moment::new(seconds * 1_000_000 + micros).ok()
}
