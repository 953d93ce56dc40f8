ghost use Rattle.std.specs.Prelude.{◌≡◌, ◌<◌, ◌≤◌, ◌/◌, ◌^◌};
ghost use Rattle.can_wire.specs.Loads.{added, more, moved_to, no_load, noted, recent_of};

use crate::recent_load::RecentLoad;
use crate::units::{NANOS_PER_MICRO, NANOS_PER_MILLI, NANOS_PER_SECOND};
use std::marker::Model;

/// How busy a wire is: the busy nanoseconds in each of the last three seconds, and in total.
#[derive(Debug, Clone, Copy, PartialEq, Eq)]
pub struct Load {
    /// The number of the second in which the last attempt ended.
    second: u64,
    /// The busy nanoseconds in that second.
    latest: u64,
    /// The busy nanoseconds in the second before it.
    before: u64,
    /// The busy nanoseconds two seconds before it.
    earlier: u64,
    /// The busy nanoseconds in total.
    total: u64,
}

impl Model for Load {
    ghost use Rattle.can_wire.specs.Loads.{Load, IsLoad};

    ghost Value = { Load };

    ghost view = { λ l. record {
      second = l.second;
      latest = l.latest;
      before = l.before;
      earlier = l.earlier;
      total = l.total;
    } };

    ghost invariant = { λ l. IsLoad (record {
      second = l.second;
      latest = l.latest;
      before = l.before;
      earlier = l.earlier;
      total = l.total;
    }) };

    ghost inverse = { λ v. record {
      second = v.second;
      latest = v.latest;
      before = v.before;
      earlier = v.earlier;
      total = v.total;
    } };
}

impl Load {
    /// Returns the load of a wire before the first attempt.
    pub fn none() -> Load
        ensures { result ≡ no_load }
    {
        Load {
            second: 0,
            latest: 0,
            before: 0,
            earlier: 0,
            total: 0,
        }
    }

    /// Records an attempt that takes the wire from nanosecond `begin` to nanosecond `end`, for less than a second. If the attempt
    /// crosses the boundary between two seconds, the time after the boundary counts for the second one.
    pub fn note(&mut self, begin: u64, end: u64)
        requires begin { begin < 10 ^ 19 }
        requires end { end < 10 ^ 19 }
        ensures { self.new ≡ noted begin end self.old }
    {
        let boundary = end / NANOS_PER_SECOND * NANOS_PER_SECOND;
        if begin < boundary {
            self.add(begin / NANOS_PER_SECOND, boundary - begin);
            self.add(end / NANOS_PER_SECOND, end - boundary);
        } else {
            self.add(end / NANOS_PER_SECOND, end.saturating_sub(begin));
        }
    }

    /// The total busy time of the wire in microseconds.
    pub fn busy_micros(self) -> u64
        ensures { result ≡ self.total / 1000 }
    {
        self.total / NANOS_PER_MICRO
    }

    /// Returns the load of the last three seconds in thousandths.
    pub fn recent(self) -> RecentLoad
        ensures { result ≡ recent_of self }
    {
        RecentLoad::new(
            self.second,
            (self.latest / NANOS_PER_MILLI) as u16,
            (self.before / NANOS_PER_MILLI) as u16,
            (self.earlier / NANOS_PER_MILLI) as u16,
        )
    }

    /// Adds busy nanoseconds to a second, which is not before the last recorded second.
    fn add(&mut self, second: u64, nanos: u64)
        requires second { second < 2 ^ 34 }
        requires nanos { nanos < 10 ^ 19 }
        ensures { self.new ≡ added second nanos self.old }
    {
        self.move_to(second);
        self.latest = more(self.latest, nanos);
        self.total = self.total.saturating_add(nanos);
    }

    /// Moves on to a later second, so that the recorded seconds become older.
    fn move_to(&mut self, second: u64)
        requires { second < 2 ^ 34 }
        ensures { self.new ≡ moved_to second self.old }
    {
        match second.saturating_sub(self.second) {
            0 => return,
            1 => {
                self.earlier = self.before;
                self.before = self.latest;
            }
            2 => {
                self.earlier = self.latest;
                self.before = 0;
            }
            _ => {
                self.earlier = 0;
                self.before = 0;
            }
        }
        self.latest = 0;
        self.second = second;
    }
}

/// Adds two numbers of busy nanoseconds in the same second. The sum is limited to the length of a second.
fn more(nanos: u64, others: u64) -> u64
    requires { nanos ≤ 10 ^ 9 }
    ensures more { result ≡ more nanos others }
    ensures within { result ≤ 10 ^ 9 }
{
    nanos.saturating_add(others).min(NANOS_PER_SECOND)
}
