ghost use Rattle.std.specs.Prelude.{◌≡◌, ◌<◌, ◌≤◌, ◌^◌};
ghost use Rattle.can_wire.specs.Loads.{permille_at, recent_in};

use crate::units::MICROS_PER_SECOND;
use can_frame::Moment;
use std::marker::Model;

/// The number of values that the ten bits of a load can have.
const SHARE: u64 = 1_024;

/// How busy a wire was in each of the last three seconds, in thousandths, packed in one word that threads can share.
#[derive(Debug, Drop)]
pub struct RecentLoad {
    /// The number of a second in 34 bits, then the load of that second and of the two seconds before it in 10 bits each.
    word: u64,
}

impl Model for RecentLoad {
    ghost use Rattle.can_wire.specs.Loads.{Recent, recent_in};

    ghost Value = { Recent };

    ghost view = { λ r. recent_in r.word };
}

impl RecentLoad {
    /// Packs the load of a second, of the second before it, and of the one before that.
    pub fn new(second: u64, latest: u16, before: u16, earlier: u16) -> RecentLoad
        requires second { second < 2 ^ 34 }
        requires latest { latest ≤ 1000 }
        requires before { before ≤ 1000 }
        requires earlier { earlier ≤ 1000 }
        ensures { result ≡ record {
          second = second;
          latest = latest;
          before = before;
          earlier = earlier;
        } }
    {
        let newer = (second * SHARE + u64::from(latest)) * SHARE + u64::from(before);
        RecentLoad {
            word: newer * SHARE + u64::from(earlier),
        }
    }

    /// Unpacks the load from a word.
    pub fn of_word(word: u64) -> RecentLoad
        ensures { result ≡ recent_in word }
    {
        RecentLoad { word }
    }

    /// The packed word.
    pub fn word(&self) -> u64
        ensures { recent_in result ≡ self.now }
    {
        self.word
    }

    /// Returns the load of the last whole second before a moment. It is 0 if that second is after the known seconds, because
    /// nothing has been attempted since. It is also 0 if that second is before the known seconds.
    pub fn permille_at(&self, now: Moment) -> u16
        ensures { result ≡ permille_at now self.now }
    {
        let second = self.word / SHARE / SHARE / SHARE;
        let current = now.micros() / MICROS_PER_SECOND;
        let permille = if current == second + 1 {
            self.word / SHARE / SHARE % SHARE
        } else if current == second {
            self.word / SHARE % SHARE
        } else if current + 1 == second {
            self.word % SHARE
        } else {
            0
        };
        permille as u16
    }
}
