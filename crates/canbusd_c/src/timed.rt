//! Schedules the attempts of a bus with bit rates, as can_session does for a bench.
ghost use Rattle.std.specs.Prelude.{◌≡◌, option_map};
ghost use Rattle.can_session.specs.Wires.{nothing_yet, set_to, moment_on, schedule_after, shown_at};

use can_bus::Attempt;
use can_fault::Verdict;
use can_frame::{Frame, Iface, Moment};
use can_proto::BusLoad;
use can_wire::{Schedule, Timing};

/// Returns the schedule of a bus before its first attempt, if the bus has bit rates.
pub fn first_schedule(timing: Option<Timing>) -> Option<Schedule>
    ensures { result ≡ option_map nothing_yet timing }
{
    match timing {
        Some(timing) => Some(Schedule::new(timing)),
        None => None,
    }
}

/// Returns the schedule after the current moment is set to this one.
pub fn set_to(mut schedule: Schedule, moment: Moment) -> Schedule
    ensures { result ≡ set_to moment schedule }
{
    schedule.set_since(moment);
    schedule
}

/// Returns the moment of the next attempt. The attempt tries this frame, if there is one. `waits` is true if an interface is
/// waiting for its restart; it matters only without a frame.
pub fn moment_on(schedule: &Schedule, waits: bool, head: Option<(Iface, Frame)>) -> Moment
    ensures { result ≡ moment_on waits head schedule.now }
{
    match head {
        Some((_, frame)) => schedule.next_moment(Some(&frame)),
        None if waits => schedule.next_moment(None),
        None => schedule.begin_moment(),
    }
}

/// Stores in a schedule the outcome of an attempt that had this verdict. `waits` is true if an interface was waiting for its
/// restart before the attempt.
pub fn note_attempt(schedule: &mut Schedule, waits: bool, verdict: Verdict, attempt: &Attempt)
    ensures { schedule.new ≡ schedule_after waits verdict attempt.now schedule.old }
{
    match attempt {
        Attempt::Tried(tried) => schedule.note_tried(&tried.frame, tried.class, verdict),
        Attempt::Idle { .. } if waits => schedule.note_idle(),
        Attempt::Idle { .. } => schedule.note_no_time(),
    }
}

/// Returns the load of the wire: the share of the last whole second before a moment in which the wire was busy, and the total busy
/// time.
pub fn load_at(schedule: &Schedule, moment: Moment) -> BusLoad
    ensures { result ≡ shown_at moment schedule.now }
{
    let (load, timing) = (schedule.load(), schedule.wire().timing());
    BusLoad {
        permille: load.recent().permille_at(moment),
        micros: load.busy_micros(),
        bitrate: timing.nominal(),
        dbitrate: timing.fast(),
    }
}
