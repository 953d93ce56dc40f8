ghost use Rattle.std.specs.Prelude.{◌≡◌, ◌≤◌, IsTrue};
ghost use Rattle.can_record.specs.Boxed.{is_off_alone};
ghost use Rattle.can_record.specs.PackedEntry.{stamp_moment, stamp_winner, stamp_len, stamp_off};

use crate::frame_words::moment_in;
use can_frame::{Iface, IfaceSet, Moment};
use std::marker::Model;

/// The moment of an attempt, the winner, the length of its frame, and whether the winner went bus off, packed in 64 bits.
#[derive(Clone, Copy)]
pub struct AttemptStamp {
    bits: u64,
}

impl Model for AttemptStamp {
    ghost use Rattle.std.specs.Prelude.{ℕ};

    ghost Value = { ℕ };

    ghost view = { λ s. s.bits };

    ghost inverse = { λ n. record { bits = n } };
}

impl AttemptStamp {
    /// Returns the stamp of an attempt. No interface except the winner may have gone bus off.
    #[inline(always)]
    pub(crate) fn new(moment: Moment, winner: Iface, len: u8, off: IfaceSet) -> AttemptStamp
        requires short { len ≤ 8 }
        requires alone { IsTrue (is_off_alone winner off) }
        ensures moment { stamp_moment result ≡ moment }
        ensures winner { stamp_winner result ≡ winner }
        ensures len { stamp_len result ≡ len }
        ensures off { stamp_off result ≡ off }
    {
        let went_off = if off.is_empty() { 0 } else { 1 };
        let winner = u64::from(winner.number());
        AttemptStamp {
            bits: moment.micros() * 512 + winner * 32 + u64::from(len) * 2 + went_off,
        }
    }

    /// The moment.
    pub fn moment(self) -> Moment
        ensures { result ≡ stamp_moment self }
    {
        moment_in(self.bits / 512)
    }

    /// The winner.
    pub fn winner(self) -> Iface
        ensures { result ≡ stamp_winner self }
    {
        Iface::new((self.bits / 32 % 16) as u8).unwrap()
    }

    /// Returns the length of the frame.
    pub fn len(self) -> u8
        ensures { result ≡ stamp_len self }
    {
        (self.bits / 2 % 16) as u8
    }

    /// Returns the interfaces that went bus off: either only the winner, or none.
    pub fn off(self) -> IfaceSet
        ensures { result ≡ stamp_off self }
    {
        if self.bits % 2 == 0 {
            IfaceSet::empty()
        } else {
            IfaceSet(1 << self.winner().number())
        }
    }
}
