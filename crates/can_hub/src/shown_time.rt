//! Publishes timestamps and the load of a bus, from its driver to the sessions.
ghost use Rattle.std.specs.Prelude.{◌≡◌};
ghost use Rattle.can_hub.specs.Buses.{bit_rates};
ghost use Rattle.can_wire.specs.Times.{rates_of};

use can_frame::Moment;
use can_proto::BusLoad;
use can_wire::{Load, RecentLoad, Timing};
use std::sync::atomic::{AtomicU64, Ordering};

/// The timestamp of the last attempt on a bus with bit rates, and the load of the bus. Threads read these values without a lock.
/// The words are written one after another, so one word may be newer than the others by one attempt. No contract mentions them.
#[derive(Drop)]
pub(crate) struct ShownTime {
    /// The timestamp of the last attempt in microseconds, or 0 before the first attempt.
    end: AtomicU64,
    /// The load over the last few seconds, encoded as the word of a `RecentLoad`.
    recent: AtomicU64,
    /// The number of microseconds for which the bus has been busy since its start.
    busy: AtomicU64,
}

impl ShownTime {
    /// Returns the initial value, before anything is published.
    pub(crate) fn none() -> ShownTime {
        ShownTime {
            end: AtomicU64::new(0),
            recent: AtomicU64::new(0),
            busy: AtomicU64::new(0),
        }
    }

    /// Publishes the timestamp of an attempt.
    pub(crate) fn show_end(&self, moment: Moment) {
        self.end.store(moment.micros(), Ordering::SeqCst);
    }

    /// Returns the timestamp of the last published attempt, or `None` if there is none.
    pub(crate) fn end(&self) -> Option<Moment> {
        match self.end.load(Ordering::SeqCst) {
            0 => None,
            micros => Moment::new(micros).ok(),
        }
    }

    /// Publishes the load of the bus.
    pub(crate) fn show_load(&self, load: Load) {
        self.recent.store(load.recent().word(), Ordering::SeqCst);
        self.busy.store(load.busy_micros(), Ordering::SeqCst);
    }

    /// Returns the last published load of a bus, as of the timestamp `moment`. `timing` contains the bit rates of the bus.
    pub(crate) fn load_at(&self, moment: Moment, timing: Option<Timing>) -> BusLoad
        ensures { rates_of result.bitrate result.dbitrate ≡ bit_rates timing }
    {
        let recent = RecentLoad::of_word(self.recent.load(Ordering::SeqCst));
        let (bitrate, dbitrate) = match timing {
            Some(timing) => (timing.nominal(), timing.fast()),
            None => (0, 0),
        };
        BusLoad {
            permille: recent.permille_at(moment),
            micros: self.busy.load(Ordering::SeqCst),
            bitrate,
            dbitrate,
        }
    }
}
