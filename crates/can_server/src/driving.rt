ghost use Rattle.std.specs.Prelude.{◌≡◌, ◌↔◌, IsTrue, false};
ghost use Rattle.can_event.specs.Events.{restarted_in};
ghost use Rattle.can_frame.specs.Sets.{no_ifaces};
ghost use Rattle.can_event.specs.declared.reply.Reply.TheVariants as reply;
ghost use Rattle.can_server.specs.Driving.{IsInVain, off_in};

use crate::notice::Notice;
use crate::server::Server;
use crate::serving::Clock;
use can_attempt::Class;
use can_bus::Attempt;
use can_fault::FaultSource;
use can_frame::{Iface, IfaceSet};
use can_hub::HubBus;
use can_station::{BusName, Gate, Hold, Pass};
use std::sync::Wait;
use std::sync::atomic::Ordering;
use std::time;
use std::time::Duration;

/// The largest number of steps that a driver makes under one hold of the lock.
pub const MOST_STEPS: u32 = 64;

/// The result of a driver's steps.
#[derive(Drop)]
pub enum Stepped {
    /// The driver continues. These interfaces changed in its last attempt.
    On(Changes),
    /// The driver has finished. All sessions have ended, and a further attempt would change nothing that a session could see.
    Out,
    /// The station refused a step.
    Refused,
}

// The methods of a server that drive a bus.
impl<'a, N: BusName, F: FaultSource + Drop, G: Gate + Drop, C: Clock, R: Wait + time::Clock> Server<
    'a,
    N,
    F,
    G,
    C,
    R,
> {
    /// Drives a bus until its station is stopped. It performs steps while an interface has a frame to send or is waiting for its
    /// restart. Finally, it hands back the pass and reports a full record or a lack of memory to the host.
    pub fn drive(&self, bus: usize) {
        if bus >= self.buses.count() {
            return;
        }
        let station = self.buses.station(bus);
        let was_refused = match station.enter_light(self.rt) {
            Ok(mut pass) => {
                let was_refused = self.step_all(bus, &mut pass);
                self.returned.lock(self.rt).take(pass);
                was_refused
            }
            Err(_) => true,
        };
        if station.became_full() {
            station.stop(self.rt);
            self.host.notify(Notice::Full { bus });
        } else if was_refused {
            self.host.notify(Notice::NoDriver { bus });
        }
    }

    /// Steps a bus with this pass. Returns whether the station refused a step, in which case the driver finishes. A station refuses
    /// if the record is full, if there is no memory, or if the pass belongs to another station.
    fn step_all(&self, bus: usize, pass: &mut Pass<N>) -> bool {
        if bus >= self.buses.count() {
            return false;
        }
        match self.buses.timing(bus) {
            Some(timing) => self.step_in_time(bus, timing, pass),
            None => self.step_at_pace(bus, pass),
        }
    }

    /// Steps a bus without bit rates. Returns whether the station refused a step, as `step_all` does.
    fn step_at_pace(&self, bus: usize, pass: &mut Pass<N>) -> bool {
        if bus >= self.buses.count() {
            return false;
        }
        let station = self.buses.station(bus);
        let pace = Duration::from_millis(u64::from(self.buses.pace_ms(bus)));
        let most = if pace.is_zero() { MOST_STEPS } else { 1 };
        let mut was_nearly_full = false;
        for _ in self.rt.forever() {
            let Some(hold) = station.hold_work(self.rt) else {
                break;
            };
            let is_nearly_full = hold.is_nearly_full();
            match self.step_some(hold, most, pass) {
                Stepped::On(changes) => {
                    self.report_changes(bus, changes);
                    self.report_nearly_full(bus, is_nearly_full && !was_nearly_full);
                    was_nearly_full = is_nearly_full;
                    station.rest(self.rt, pace);
                }
                Stepped::Out => break,
                Stepped::Refused => return true,
            }
        }
        false
    }

    /// Performs up to `most` steps of a bus under one hold of its lock. It stops if no interface has a frame to send or is waiting
    /// for its restart. It also stops after an attempt in which an interface went bus off or was restarted.
    fn step_some(
        &self,
        mut hold: Hold<'_, N, F, G, HubBus>,
        most: u32,
        pass: &mut Pass<N>,
    ) -> Stepped {
        for _ in 0..most {
            if !hold.has_work() {
                break;
            }
            let Ok(attempt) = hold.step(self.alloc, pass, self.host.now()) else {
                return Stepped::Refused;
            };
            let changes = Changes::of(&attempt);
            if changes.are_some() {
                return Stepped::On(changes);
            }
            if makes_no_progress(&attempt) && self.is_ending.load(Ordering::SeqCst) {
                return Stepped::Out;
            }
        }
        Stepped::On(Changes::none())
    }

    /// Reports to the host that the record of a bus is nearly full if `has_become` is true.
    pub fn report_nearly_full(&self, bus: usize, has_become: bool) {
        if has_become {
            self.host.notify(Notice::NearlyFull { bus });
        }
    }

    /// Reports to the host which interfaces went bus off and which were restarted in an attempt.
    pub fn report_changes(&self, bus: usize, changes: Changes) {
        if !changes.are_some() {
            return;
        }
        for number in 0..16 {
            if let Some(iface) = Iface::new(number) {
                if changes.off.contains(iface) {
                    self.host.notify(Notice::WentOff { bus, iface });
                }
                if changes.restarted.contains(iface) {
                    self.host.notify(Notice::Restarted { bus, iface });
                }
            }
        }
    }
}

/// The interfaces that went bus off and those that were restarted in an attempt.
#[derive(Debug, Clone, Copy)]
pub struct Changes {
    off: IfaceSet,
    restarted: IfaceSet,
}

impl Changes {
    /// Returns no changes.
    pub fn none() -> Changes {
        Changes {
            off: IfaceSet::empty(),
            restarted: IfaceSet::empty(),
        }
    }

    /// Returns whether any interface went bus off or was restarted.
    pub fn are_some(&self) -> bool
        ensures { result ≡ false ↔ (self.now.off ≡ no_ifaces) × (self.now.restarted ≡ no_ifaces) }
    {
        !self.off.is_empty() || !self.restarted.is_empty()
    }

    /// Returns the changes that this attempt made.
    pub fn of(attempt: &Attempt) -> Changes
        ensures off { result.off ≡ off_in attempt.now }
        ensures restarted { result.restarted ≡ restarted_in (reply.Attempted attempt.now) }
    {
        match attempt {
            Attempt::Idle { restarted } => Changes {
                off: IfaceSet::empty(),
                restarted: *restarted,
            },
            Attempt::Tried(tried) => Changes {
                off: tried.off,
                restarted: tried.restarted,
            },
        }
    }
}

/// Returns whether an attempt neither sent a frame nor restarted an interface. After all sessions have ended, such attempts only
/// fill the record.
pub fn makes_no_progress(attempt: &Attempt) -> bool
    ensures { IsTrue result ↔ IsInVain attempt.now }
{
    match attempt {
        Attempt::Idle { restarted } => restarted.is_empty(),
        Attempt::Tried(tried) => tried.class == Class::NoAck && tried.restarted.is_empty(),
    }
}
