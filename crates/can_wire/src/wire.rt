ghost use Rattle.std.specs.Prelude.{◌≡◌, ◌<◌, ◌*◌, ◌^◌};
ghost use Rattle.can_wire.specs.Wires.{unused, later, moment_of, begin_of, is_before, moment_after, taken_for};

use crate::timing::Timing;
use crate::units::NANOS_PER_MICRO;
use can_frame::Moment;
use std::marker::Model;

/// The last nanosecond of the last moment.
const LAST: u64 = 9_999_999_999_999_999_999;

/// The wire of a bus: the timing of its bits, and the time at which the wire is free.
#[derive(Debug, Clone, Copy, PartialEq, Eq)]
pub struct Wire {
    timing: Timing,
    free: u64,
}

impl Model for Wire {
    ghost use Rattle.std.specs.Prelude.{◌<◌, ◌^◌};
    ghost use Rattle.can_wire.specs.Wires.{Wire};

    ghost Value = { Wire };

    ghost view = { λ w. record { timing = w.timing; free = w.free } };

    ghost invariant = { λ w. w.free < 10 ^ 19 };

    ghost inverse = { λ v. record { timing = v.timing; free = v.free } };
}

impl Wire {
    /// Returns the wire of a bus before its first frame.
    pub fn new(timing: Timing) -> Wire
        ensures { result ≡ unused timing }
    {
        Wire { timing, free: 0 }
    }

    /// The timing of the bits on the wire.
    pub fn timing(self) -> Timing
        ensures { result ≡ self.timing }
    {
        self.timing
    }

    /// The nanosecond from which the wire is free.
    pub fn free(self) -> u64
        ensures free { result ≡ self.free }
        ensures below { result < 10 ^ 19 }
    {
        self.free
    }

    /// The moment at which the wire is free.
    pub fn free_at(self) -> Moment
        ensures { result ≡ moment_of self.free }
    {
        moment_of(self.free)
    }

    /// Returns the nanosecond at which the next attempt begins. It begins at the moment `set`, or when the wire is free if that is
    /// later.
    pub fn begin(self, set: Moment) -> u64
        ensures begin { result ≡ begin_of set self }
        ensures below { result < 10 ^ 19 }
    {
        self.free.max(nanos_of(set))
    }

    /// Whether the next attempt begins before a moment, if it begins at `set` or when the wire is free.
    pub fn begins_before(self, set: Moment, moment: Moment) -> bool
        ensures { result ≡ is_before set self moment }
    {
        self.begin(set) < nanos_of(moment)
    }

    /// Returns the moment that is `nanos` nanoseconds after the next attempt begins.
    pub fn moment_after(self, set: Moment, nanos: u64) -> Moment
        ensures { result ≡ moment_after set nanos self }
    {
        moment_of(later(self.begin(set), nanos))
    }

    /// Returns the wire after the next attempt, which takes `nanos` nanoseconds.
    pub fn taken_for(self, set: Moment, nanos: u64) -> Wire
        ensures { result ≡ taken_for set nanos self }
    {
        Wire {
            timing: self.timing,
            free: later(self.begin(set), nanos),
        }
    }
}

/// Returns the time that is `nanos` nanoseconds after `start`, but no later than the last moment.
fn later(start: u64, nanos: u64) -> u64
    ensures later { result ≡ later start nanos }
    ensures below { result < 10 ^ 19 }
{
    start.saturating_add(nanos).min(LAST)
}

/// Returns the nanosecond at which a moment begins.
pub(crate) fn nanos_of(moment: Moment) -> u64
    ensures nanos { result ≡ moment * 1000 }
    ensures below { result < 10 ^ 19 }
{
    moment.micros() * NANOS_PER_MICRO
}

/// Returns the moment in which a nanosecond lies.
fn moment_of(nanos: u64) -> Moment
    requires { nanos < 10 ^ 19 }
    ensures { result ≡ moment_of nanos }
{
    match Moment::new(nanos / NANOS_PER_MICRO) {
        Ok(moment) => moment,
        Err(_) => unreachable!(),
    }
}
