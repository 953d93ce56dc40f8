ghost use Rattle.std.specs.Prelude.{◌≡◌, true, false, Some, IfSome, IfNone, is_none};
ghost use Rattle.can_station.specs.Passes.{InSome, IsStateOf};
ghost use Rattle.can_station.specs.Waits.{AreCounts, EndsItemWait, IsIdleAndStopped, frame_wake, has_work, work_wake};

use crate::bus_name::BusName;
use crate::gate::{Gate, Point};
use crate::hold::Hold;
use crate::station::Station;
use crate::station_state::StationState;
use crate::wait_queues::QueueSet;
use can_bus::{Attempt, Event, IfaceStats, Journaled, Refusal, Reply, SocketId, SocketStats};
use can_fault::FaultSource;
use can_frame::Iface;
use std::sync::Wait;
use std::sync::atomic::Ordering::SeqCst;
use std::time::{Clock, Duration};

/// No call found the record full.
pub(crate) const ROOM: u8 = 0;

/// A call found the record full.
const FULL: u8 = 1;

/// A call found the record full, and this was reported.
const REPORTED: u8 = 2;

/// Why a wait ended.
#[derive(Debug, Clone, Copy, PartialEq, Eq)]
pub enum WakeReason {
    /// There is something to do: an item is queued, a frame waits to be sent, or an interface counts towards its restart.
    Ready,
    /// The socket is not open.
    Closed,
    /// The station was stopped.
    Stopped,
}

/// The changes made by calls that can matter to waiting threads.
#[derive(Debug, Clone, Copy, PartialEq, Eq)]
pub(crate) struct Wakeups {
    /// Whether there may be a new frame to send.
    has_work: bool,
    /// Whether a socket may have a new item or was closed.
    has_items: bool,
    /// Whether a call found the record full.
    is_full: bool,
}

impl Wakeups {
    /// Returns a value that contains no changes.
    pub(crate) fn none() -> Wakeups {
        Wakeups {
            has_work: false,
            has_items: false,
            is_full: false,
        }
    }

    /// Adds the changes that a call may have made. Only `send` adds a frame to send. Attempts and restarts add items, and `close`
    /// closes a socket. An interface begins to count towards its restart when a frame is tried; the `send` of that frame has
    /// already woken the driver. Taking an interface down only reduces the work.
    pub(crate) fn add(&mut self, event: &Event, reply: &Reply) {
        match (event, reply) {
            (_, Reply::Refused(why)) => self.add_refusal(*why),
            (_, Reply::Attempted(Attempt::Idle { restarted })) if restarted.is_empty() => {}
            (Event::Send(_, _), _) => self.has_work = true,
            (Event::Close(_) | Event::Attempt(_, _) | Event::Restart(_, _), _) => {
                self.has_items = true;
            }
            _ => {}
        }
    }

    /// Adds the changes that a send with this outcome may have made.
    pub(crate) fn add_send(&mut self, outcome: Result<u64, Refusal>) {
        match outcome {
            Ok(_) => self.has_work = true,
            Err(why) => self.add_refusal(why),
        }
    }

    /// Notes a refusal if it means that the record is full.
    pub(crate) fn add_refusal(&mut self, why: Refusal) {
        if why == Refusal::RecordFull {
            self.is_full = true;
        }
    }
}

impl Wakeups {
    /// Returns the queues of threads whose socket has an item or is closed.
    pub(crate) fn woken<N: BusName, F: FaultSource + Drop, B: Journaled>(
        self,
        state: &mut StationState<N, F, B>,
    ) -> QueueSet
        ensures { state.new ≡ state.old }
    {
        if self.has_items {
            state.take_woken()
        } else {
            QueueSet::none()
        }
    }
}

// Methods of a station that are not events of the bus. Each of them may wait for the lock.
impl<N: BusName, F: FaultSource + Drop, G: Gate + Drop, B: Journaled> Station<N, F, G, B> {
    /// Returns the statistics of a socket and of an interface, both taken at the same time. The first is `None` exactly if the
    /// socket is not open. The second is `None` exactly if there is no such interface.
    pub fn stats<R: Wait>(
        &self,
        rt: &R,
        socket: SocketId,
        iface: Iface,
    ) -> (Option<SocketStats>, Option<IfaceStats>)
        ensures { InSome F self.now (λ held. AreCounts held.journal socket.0 iface result) }
    {
        self.hold(rt).stats(socket, iface)
    }

    /// Waits until an item is queued on the socket. Returns `Ready` if an item is queued, `Closed` if the socket is not open, or
    /// `Stopped` after `stop`. Otherwise it sleeps until a call changes one of these conditions.
    pub fn wait_frame<R: Wait>(&self, rt: &R, socket: SocketId) -> WakeReason
        ensures { InSome F self.now (λ held. frame_wake held socket.0 ≡ Some result) }
    {
        self.wait_items(rt, socket).0
    }

    /// Waits like `wait_frame`, and also returns the number of items queued on the socket at the end of the wait. The number is at
    /// least one if the result is `Ready`, and 0 if it is `Closed` or `Stopped`.
    pub fn wait_items<R: Wait>(&self, rt: &R, socket: SocketId) -> (WakeReason, u64)
        ensures { InSome F self.now (λ held. EndsItemWait held socket.0 result) }
    {
        let state = self.items.queue(socket).wait_while(
            rt,
            self.state.lock(rt),
            |state|
                ensures { is_none (frame_wake state.new socket.0) ≡ result }
            { state.frame_wake_or_sleep(socket).is_none() },
        );
        let state = self.own(rt, state);
        let Some(wake) = state.frame_wake(socket) else {
            unreachable!()
        };
        (wake, state.waiting(socket))
    }

    /// Waits until a live interface has a frame to send, or an interface counts towards its restart. Returns `Ready` in these
    /// cases, or `Stopped` after `stop`. Otherwise it sleeps until a call changes one of these conditions.
    pub fn wait_work<R: Wait>(&self, rt: &R) -> WakeReason
        ensures { InSome F self.now (λ held. work_wake held ≡ Some result) }
    {
        let state = self.work.wait_while(
            rt,
            self.state.lock(rt),
            |state|
                ensures { is_none (work_wake state.new) ≡ result }
            { state.work_wake().is_none() },
        );
        let state = self.own(rt, state);
        let Some(wake) = state.work_wake() else {
            unreachable!()
        };
        wake
    }

    /// Waits like `wait_work`, and keeps the lock for the driver's steps. Returns `None` after `stop` if there is no work. If there
    /// is work, it also waits for room in the bus's tail, like `lock`.
    pub fn hold_work<R: Wait>(&self, rt: &R) -> Option<Hold<'_, N, F, G, B>>
        ensures state { IfSome result (λ h. IsStateOf self.now h) }
        ensures work { IfSome result (λ h. has_work h.journal ≡ true) }
        ensures none { IfNone result (InSome F self.now (λ held. IsIdleAndStopped held)) }
    {
        self.gate.at(Point::BeforeStep);
        let state = self.work.wait_while(
            rt,
            self.state.lock(rt),
            |state|
                ensures { result ≡ false → is_none (work_wake state.new) ≡ false }
            { state.is_idle_or_short() },
        );
        let state = self.own(rt, state);
        if !state.has_work() {
            return None;
        }
        Some(Hold {
            station: self,
            state,
            wakeups: Wakeups::none(),
        })
    }

    /// Waits for this duration or until `stop`. If the duration is 0, it returns at once without taking the lock. Calls of passes
    /// do not end the wait.
    pub fn rest<R: Wait + Clock>(&self, rt: &R, duration: Duration) {
        if !duration.is_zero() {
            self.ends
                .wait_timeout_while(rt, self.state.lock(rt), duration, |state| {
                    !state.is_stopped()
                });
        }
    }

    /// Returns true if a call was refused because the record is full, but only the first time that this method is called after the
    /// refusal. It never waits.
    pub fn became_full(&self) -> bool {
        self.fullness
            .compare_exchange(FULL, REPORTED, SeqCst, SeqCst)
            .is_ok()
    }

    /// Returns whether a call was refused because the record is full. It never waits.
    pub fn is_full(&self) -> bool {
        self.fullness.load(SeqCst) != ROOM
    }

    /// Ends all waits, now and in the future. The replies to calls do not change.
    pub fn stop<R: Wait>(&self, rt: &R) {
        self.state.lock(rt).stop();
        self.work.notify_all();
        self.items.wake_all();
        self.ends.notify_all();
    }

    /// Wakes the threads that wait for work if there may be new work, and the threads that wait for items in these queues. The lock
    /// has to be free.
    pub(crate) fn wake(&self, wakeups: Wakeups, woken: QueueSet) {
        if wakeups.is_full {
            let _ = self.fullness.compare_exchange(ROOM, FULL, SeqCst, SeqCst);
        }
        if wakeups.has_work {
            self.work.notify_all();
        }
        self.items.wake(woken);
    }
}
