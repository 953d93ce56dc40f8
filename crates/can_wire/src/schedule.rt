ghost use Rattle.std.specs.Prelude.{◌≡◌, ◌≤◌, ◌-◌, ◌*◌, max};
ghost use Rattle.std.specs.Option.{option_map};
ghost use Rattle.can_wire.specs.Schedules.{after_idle, after_no_time, after_tried, begin_moment, next_begin, next_moment, nothing_yet};

use crate::load::Load;
use crate::timing::Timing;
use crate::wire::{Wire, nanos_of};
use can_attempt::Class;
use can_fault::Verdict;
use can_frame::{Frame, Moment};
use std::marker::Model;

/// When the attempts of a driver or a bench take place on a bus with bit rates. Each attempt begins as soon as there is something
/// to attempt and the wire is free, so a driver that is late loses no time on the wire.
#[derive(Debug, Clone, Copy, PartialEq, Eq)]
pub struct Schedule {
    wire: Wire,
    /// The moment since which there is something to attempt.
    since: Moment,
    /// The moment of the last attempt.
    last: Moment,
    load: Load,
}

impl Model for Schedule {
    ghost use Rattle.can_wire.specs.Schedules.{Schedule};

    ghost Value = { Schedule };

    ghost view = { λ s. record { wire = s.wire; since = s.since; last = s.last; load = s.load } };

    ghost inverse = { λ v.
        record { wire = v.wire; since = v.since; last = v.last; load = v.load } };
}

impl Schedule {
    /// Returns a schedule before the first attempt.
    pub fn new(timing: Timing) -> Schedule
        ensures { result ≡ nothing_yet timing }
    {
        let start = Moment::new(0).unwrap();
        Schedule {
            wire: Wire::new(timing),
            since: start,
            last: start,
            load: Load::none(),
        }
    }

    /// The wire of the bus.
    pub fn wire(&self) -> Wire
        ensures { result ≡ self.now.wire }
    {
        self.wire
    }

    /// How busy the attempts keep the wire. Attempts without a waiting frame do not count as busy.
    pub fn load(&self) -> Load
        ensures { result ≡ self.now.load }
    {
        self.load
    }

    /// Sets the moment since which there is something to attempt. The next attempt begins at that moment, or when the wire is free
    /// if that is later.
    pub fn set_since(&mut self, moment: Moment)
        ensures { self.new ≡ record self.old { since = moment } }
    {
        self.since = moment;
    }

    /// Returns how many nanoseconds after `now` the next attempt begins, or 0 if it is already due.
    pub fn early(&self, now: Moment) -> u64
        ensures { result ≡ next_begin self.now - now * 1000 }
    {
        self.wire.begin(self.since).saturating_sub(nanos_of(now))
    }

    /// Returns how many nanoseconds before `now` the next attempt was due, or 0 if it is not due before `now`.
    pub fn late(&self, now: Moment) -> u64
        ensures { result ≡ now * 1000 - next_begin self.now }
    {
        nanos_of(now).saturating_sub(self.wire.begin(self.since))
    }

    /// Returns the moment of the next attempt: the end of the frame, or the end of the attempt if there is no frame. It is never
    /// before the moment of the last attempt.
    pub fn next_moment(&self, frame: Option<&Frame>) -> Moment
        ensures moment { result ≡ next_moment (option_map (λ f. f.now) frame.entry) self.now }
        ensures rising { self.now.last ≤ result }
    {
        let timing = self.wire.timing();
        let lasts = match frame {
            Some(frame) => timing.frame_nanos(frame),
            None => timing.idle_nanos(),
        };
        later_of(self.last, self.wire.moment_after(self.since, lasts))
    }

    /// Returns the moment of the next attempt if the attempt takes no time: the moment at which it begins. It is never before the
    /// moment of the last attempt.
    pub fn begin_moment(&self) -> Moment
        ensures moment { result ≡ begin_moment self.now }
        ensures rising { self.now.last ≤ result }
    {
        later_of(self.last, self.wire.moment_after(self.since, 0))
    }

    /// Advances the schedule past an attempt to send a frame. `verdict` is the fault that struck the attempt, and `class` is its
    /// outcome.
    pub fn note_tried(&mut self, frame: &Frame, class: Class, verdict: Verdict)
        ensures { self.new ≡ after_tried frame.now class verdict self.old }
    {
        let lasts = self.wire.timing().attempt_nanos(frame, class, verdict);
        let begin = self.wire.begin(self.since);
        self.last = self.next_moment(Some(frame));
        self.wire = self.wire.taken_for(self.since, lasts);
        self.load.note(begin, self.wire.free());
    }

    /// Advances the schedule past an attempt for which no frame was waiting.
    pub fn note_idle(&mut self)
        ensures { self.new ≡ after_idle self.old }
    {
        let lasts = self.wire.timing().idle_nanos();
        self.last = self.next_moment(None);
        self.wire = self.wire.taken_for(self.since, lasts);
    }

    /// Advances the schedule past an attempt that took no time.
    pub fn note_no_time(&mut self)
        ensures { self.new ≡ after_no_time self.old }
    {
        self.last = self.begin_moment();
        self.wire = self.wire.taken_for(self.since, 0);
    }
}

/// Returns the later of two moments.
fn later_of(one: Moment, other: Moment) -> Moment
    ensures { result ≡ max one other }
{
    if one.micros() < other.micros() {
        other
    } else {
        one
    }
}
