//! The driver of a bus with bit rates.
ghost use Rattle.std.specs.Prelude.{◌≡◌, IfErr, IfOk};
ghost use Rattle.can_server.specs.Timed.{GoesBy, MakesDue, after_attempt, caught_up, head_moment};
ghost use Rattle.can_station.specs.Held.{Held};
ghost use Rattle.can_station.specs.Passes.{MadeStep, next_try, next_verdict};

use crate::driving::{Changes, MOST_STEPS, Stepped, makes_no_progress};
use crate::notice::Notice;
use crate::server::Server;
use crate::serving::Clock;
use can_bus::Attempt;
use can_fault::{FaultSource, Verdict};
use can_frame::{Frame, Iface, Moment};
use can_hub::HubBus;
use can_station::{BusName, Gate, Hold, Pass, StationRefusal, WakeReason};
use can_wire::units::NANOS_PER_MILLI;
use can_wire::{Schedule, Timing};
use std::sync::Wait;
use std::sync::atomic::Ordering;
use std::time;
use std::time::Duration;

/// The largest delay in nanoseconds that a driver makes up for. A driver that is later than this skips the time that it missed.
const MOST_LATE: u64 = 100_000_000;

/// The smallest time in microseconds between two reports of a late driver.
const BETWEEN_NOTES: u64 = 60_000_000;

/// The state that the driver of a bus with bit rates keeps while it does not hold the lock.
#[derive(Drop)]
struct Timed {
    schedule: Schedule,
    /// Whether an interface had a frame to send or was waiting for its restart when the driver released the lock.
    has_more: bool,
    /// The delay of the driver in milliseconds, if the delay is to be reported.
    note: Option<u64>,
    /// The time of the last report that the driver was late.
    noted: Option<Moment>,
}

impl Timed {
    fn new(timing: Timing) -> Timed {
        Timed {
            schedule: Schedule::new(timing),
            has_more: false,
            note: None,
            noted: None,
        }
    }

    /// Restarts the schedule at this time if the next attempt is too late. The delay is reported, but at most once a minute.
    fn catch_up(&mut self, now: Moment)
        ensures schedule { self.new.schedule ≡ caught_up now self.old.schedule }
        ensures more { self.new.has_more ≡ self.old.has_more }
    {
        let late = self.schedule.late(now);
        if late <= MOST_LATE {
            return;
        }
        self.schedule.set_since(now);
        let is_noted = match self.noted {
            Some(noted) => now.micros().saturating_sub(noted.micros()) < BETWEEN_NOTES,
            None => false,
        };
        if !is_noted {
            self.noted = Some(now);
            self.note = Some(late / NANOS_PER_MILLI);
        }
    }
}

impl<'a, N: BusName, F: FaultSource + Drop, G: Gate + Drop, C: Clock, R: Wait + time::Clock> Server<
    'a,
    N,
    F,
    G,
    C,
    R,
> {
    /// Drives a bus with bit rates until its station is stopped. It performs steps while an interface has a frame to send or is
    /// waiting for its restart, each step when the wire is free. Returns whether the station refused a step, in which case the
    /// driver finishes. In the schedule, each attempt begins at the end of the previous one. That end follows from the length of
    /// the attempt, not from the clock, so a driver that wakes late does not stay late. A late driver makes up to 64 attempts under
    /// one hold of the lock.
    pub fn step_in_time(&self, bus: usize, timing: Timing, pass: &mut Pass<N>) -> bool {
        if bus >= self.buses.count() {
            return false;
        }
        let station = self.buses.station(bus);
        let mut timed = Timed::new(timing);
        let mut was_nearly_full = false;
        for _ in self.rt.forever() {
            if !timed.has_more {
                if station.wait_work(self.rt) == WakeReason::Stopped {
                    break;
                }
                timed.schedule.set_since(self.host.now());
            }
            let early = timed.schedule.early(self.host.now());
            station.rest(self.rt, Duration::from_nanos(early));
            let hold = station.lock(self.rt);
            let is_nearly_full = hold.is_nearly_full();
            let now = self.host.now();
            match self.step_due(hold, bus, &mut timed, pass, now) {
                Stepped::On(changes) => {
                    self.report_changes(bus, changes);
                    self.report_nearly_full(bus, is_nearly_full && !was_nearly_full);
                    self.report_late(bus, &mut timed);
                    was_nearly_full = is_nearly_full;
                }
                Stepped::Out => break,
                Stepped::Refused => return true,
            }
        }
        false
    }

    /// Makes the attempts that are due at this time, under one hold of the lock, as `step_all_due` does.
    fn step_due(
        &self,
        mut hold: Hold<'_, N, F, G, HubBus>,
        bus: usize,
        timed: &mut Timed,
        pass: &mut Pass<N>,
        now: Moment,
    ) -> Stepped
        ensures { (last : Held F) × MakesDue F.verdicts result
            (record {
              held = hold.entry;
              pass = pass.old;
              schedule = caught_up now timed.old.schedule;
            })
            (record { held = last; pass = pass.new; schedule = timed.new.schedule }) }
    {
        let is_ending = self.is_ending.load(Ordering::SeqCst);
        timed.catch_up(now);
        self.step_all_due(&mut hold, bus, timed, pass, now, is_ending)
    }

    /// Makes the next attempt, which is due, and all further attempts that are due. It stops after an attempt in which an interface
    /// went bus off or was restarted. After all sessions have ended, it also makes attempts that are not yet due.
    fn step_all_due(
        &self,
        hold: &mut Hold<'_, N, F, G, HubBus>,
        bus: usize,
        timed: &mut Timed,
        pass: &mut Pass<N>,
        now: Moment,
        is_ending: bool,
    ) -> Stepped
        ensures { MakesDue F.verdicts result
            (record { held = hold.old; pass = pass.old; schedule = timed.old.schedule })
            (record { held = hold.new; pass = pass.new; schedule = timed.new.schedule }) }
    {
        timed.has_more = hold.has_work();
        for count in 0..MOST_STEPS {
            let is_due = count == 0 || is_ending || timed.schedule.early(now) == 0;
            if !timed.has_more || !is_due {
                break;
            }
            let Ok(attempt) = self.step_once(hold, bus, &mut timed.schedule, pass) else {
                return Stepped::Refused;
            };
            timed.has_more = hold.has_work();
            let changes = Changes::of(&attempt);
            if changes.are_some() {
                return Stepped::On(changes);
            }
            if makes_no_progress(&attempt) && is_ending {
                return Stepped::Out;
            }
        }
        Stepped::On(Changes::none())
    }

    /// Makes the next attempt of a schedule at its scheduled time and records the outcome in the schedule. The end of the attempt
    /// is published first, so the delivering threads can read it before the items arrive.
    fn step_once(
        &self,
        hold: &mut Hold<'_, N, F, G, HubBus>,
        bus: usize,
        schedule: &mut Schedule,
        pass: &mut Pass<N>,
    ) -> Result<Attempt, StationRefusal>
        ensures made { MadeStep F.verdicts hold.old pass.old
            (head_moment schedule.old (next_try hold.old.journal)) result hold.new pass.new }
        ensures goes_by { IfOk result (λ a.
            GoesBy schedule.old (next_verdict F.verdicts hold.old) a schedule.new) }
        ensures stays { IfErr result (λ why. schedule.new ≡ schedule.old) }
    {
        let moment = head_moment(schedule, hold.next_head());
        self.buses.show_end(bus, moment);
        let (verdict, attempt) = hold.step_judged(self.alloc, pass, moment)?;
        note_attempt(schedule, verdict, &attempt);
        self.buses.show_load(bus, schedule.load());
        Ok(attempt)
    }

    /// Reports to the host that the driver of a bus was late, at most once a minute.
    fn report_late(&self, bus: usize, timed: &mut Timed) {
        if let Some(millis) = timed.note.take() {
            self.host.notify(Notice::Late { bus, millis });
        }
    }
}

/// Returns the time of the next attempt in a schedule: the end of this frame, or the end of the attempt if there is no frame.
fn head_moment(schedule: &Schedule, head: Option<(Iface, Frame)>) -> Moment
    ensures { result ≡ head_moment schedule.now head }
{
    match head {
        Some((_, frame)) => schedule.next_moment(Some(&frame)),
        None => schedule.next_moment(None),
    }
}

/// Records in a schedule the outcome of an attempt that had this verdict.
fn note_attempt(schedule: &mut Schedule, verdict: Verdict, attempt: &Attempt)
    ensures { schedule.new ≡ after_attempt verdict attempt.now schedule.old }
{
    match attempt {
        Attempt::Tried(tried) => schedule.note_tried(&tried.frame, tried.class, verdict),
        Attempt::Idle { .. } => schedule.note_idle(),
    }
}
