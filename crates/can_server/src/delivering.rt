//! The thread that delivers the items of a session.

use crate::conn::{Conn, Out};
use crate::conversation::Conversation;
use crate::serving::Clock;
use can_fault::FaultSource;
use can_hub::{Buses, HubBus};
use can_station::{BusName, Gate, Station, WakeReason};
use std::sync::{Mutex, Wait};
use std::time::Duration;
use std::{thread, time};

/// The pause in milliseconds before the first items, if the reply to `rawmode` was written separately. Some clients read that reply
/// and all bytes after it as one message.
const BEFORE_ITEMS_MS: u64 = 20;

/// The state of the thread that delivers the items of a session in raw mode.
#[derive(Drop)]
pub struct Delivery<'s, 't, N: BusName, F: FaultSource + Drop, G: Gate + Drop, C, R: Wait> {
    pub rt: &'s R,
    pub host: &'s C,
    pub buses: &'s Buses<N, F, G>,
    pub talk: &'s Mutex<Conversation<'t, N, F, G, R>>,
    pub conn: &'s Conn,
    /// Whether the reply to `rawmode` was written separately.
    pub is_reply_apart: bool,
}

impl<
    's,
    't,
    N: BusName,
    F: FaultSource + Drop,
    G: Gate + Drop,
    C: Clock,
    R: Wait + time::Clock,
> Delivery<'s, 't, N, F, G, C, R> {
    /// Delivers items to the client until the session ends, its socket is closed or the record is full. The session also ends if it
    /// cannot receive items for another reason, such as lack of memory, or if the client does not accept them.
    pub fn deliver_all(&self) {
        if self.is_reply_apart {
            thread::sleep(self.rt, Duration::from_millis(BEFORE_ITEMS_MS));
        }
        let Some(place) = self.talk.lock(self.rt).place() else {
            return;
        };
        for _ in self.rt.forever() {
            let (wake, waiting) = place.station.wait_items(self.rt, place.socket);
            if wake != WakeReason::Ready {
                break;
            }
            self.await_frames(place.station);
            if !self.deliver_waiting(waiting) {
                stop_full(self.rt, place.station);
                self.end_unless_full(place.station);
                break;
            }
        }
    }

    /// Ends the session and shuts down its connection. If the record is full, a session that has not ended yet continues.
    fn end_unless_full(&self, station: &Station<N, F, G, HubBus>) {
        let mut talk = self.talk.lock(self.rt);
        if talk.is_over() || !station.is_full() {
            talk.end();
            self.conn.shutdown();
        }
    }

    /// On a bus with bit rates, waits until the frames to be delivered have ended on the wire. No lock is held during the wait.
    fn await_frames(&self, station: &Station<N, F, G, HubBus>) {
        let Some(end) = self.buses.last_end(usize::from(station.number())) else {
            return;
        };
        let left = end.micros().saturating_sub(self.host.now().micros());
        station.rest(self.rt, Duration::from_micros(left));
    }

    /// Delivers the `waiting` items to the client. Returns whether more items may follow.
    fn deliver_waiting(&self, waiting: u64) -> bool {
        let mut left = waiting;
        for _ in 0..waiting {
            if left == 0 {
                break;
            }
            match self.talk.lock(self.rt).deliver(left, &mut Out(self.conn)) {
                Some(taken) => left = left.saturating_sub(taken),
                None => return false,
            }
        }
        true
    }
}

/// Stops a station if its record is full. The state of a stopped station no longer changes, even if a socket is closed. The driver
/// of the station finishes and reports the full record to the host.
pub fn stop_full<N: BusName, F: FaultSource + Drop, G: Gate + Drop, R: Wait>(
    rt: &R,
    station: &Station<N, F, G, HubBus>,
) {
    if station.is_full() {
        station.stop(rt);
    }
}
