use crate::accepting::Visit;
use crate::conn::{Conn, Out};
use crate::conversation::{Conversation, OpenSocket};
use crate::delivering::{Delivery, stop_full};
use crate::notice::Notice;
use crate::server::Server;
use crate::serving::Clock;
use can_fault::FaultSource;
use can_frame::Iface;
use can_hub::{HubBus, ReturnedPasses, Tally};
use can_proto::Cause;
use can_station::{BusName, Gate, Station};
use std::sync::{Mutex, Wait};
use std::thread::Threads;
use std::{thread, time};

/// The largest number of bytes in one read.
const PIECE: usize = 4096;

/// The result of one read.
enum ReadOutcome {
    /// The session carried out a piece of input and continues.
    More,
    /// The session has ended.
    Over,
    /// The client has closed the connection.
    Gone,
}

// The methods of a server that run a session. One thread reads the input. In raw mode, another thread delivers the items.
impl<
    'a,
    N: BusName + Send + Sync,
    F: FaultSource + Drop + Send,
    G: Gate + Drop + Send + Sync,
    C: Clock + Sync,
    R: Threads + Wait + time::Clock + Sync,
> Server<'a, N, F, G, C, R> {
    /// Runs a session until it ends, and hands back its pass. The client's slot is freed before the client sees the end of the
    /// connection.
    pub fn run_session(&self, visit: &Visit<'_>) {
        let Some(conn) = self.clients.lock(self.rt).conn(visit.place) else {
            return;
        };
        let tally = self.converse(visit, &conn);
        self.release(visit.place);
        conn.shutdown();
        self.report_end(visit.session, tally);
    }

    /// Serves a client until its session has ended, and then hands back the pass. Returns the counts of the session's calls.
    fn converse(&self, visit: &Visit<'_>, conn: &Conn) -> Tally {
        let most = self.host.write_bytes();
        let Ok(mut talk) = Conversation::new(self.rt, self.alloc, self.buses, self.spares(), most)
        else {
            conn.refuse(Cause::NoMemory);
            return Tally::none();
        };
        if !talk.greet(&mut Out(conn)) {
            return Tally::none();
        }
        let talk = Mutex::new(talk);
        self.hear_all(&talk, visit, conn);
        let talk = talk.into_inner();
        let tally = talk.tally();
        if let Some(pass) = talk.into_pass() {
            self.returned.lock(self.rt).take(pass);
        }
        tally
    }

    /// Returns the passes that a session may reuse, if this is a long run.
    fn spares(&self) -> Option<&'a Mutex<ReturnedPasses<N>>> {
        self.is_long.then_some(self.returned)
    }

    /// Reads the client's input. Once the session is in raw mode, the client cannot lose its slot, and another thread delivers the
    /// items.
    fn hear_all(&self, talk: &Mutex<Conversation<'_, N, F, G, R>>, visit: &Visit<'_>, conn: &Conn) {
        let Some(place) = self.hear_until_raw(talk, conn) else {
            self.report_stranger(talk, visit.session);
            return;
        };
        if self.is_long && !visit.acceptor.count_raw() {
            talk.lock(self.rt).end();
            conn.refuse(Cause::TooManySessions);
            return;
        }
        self.clients.lock(self.rt).keep(visit.place);
        self.host.notify(Notice::Opened {
            session: visit.session,
            bus: usize::from(place.station.number()),
            iface: place.iface,
        });
        let is_reply_apart = !talk.lock(self.rt).said_more();
        let delivery = Delivery {
            rt: self.rt,
            host: self.host,
            buses: self.buses,
            talk,
            conn,
            is_reply_apart,
        };
        let delivery = &delivery;
        thread::scope(thread::scope_env(), self.rt, |scope| {
            let delivers = scope.spawn(move || delivery.deliver_all()).is_ok();
            self.hear_out(talk, conn, &place, delivers);
        });
    }
}

impl<'a, N: BusName, F: FaultSource + Drop, G: Gate + Drop, C: Clock, R: Wait + time::Clock> Server<
    'a,
    N,
    F,
    G,
    C,
    R,
> {
    /// Reads the rest of the input while another thread delivers the items, and then ends the session.
    fn hear_out(
        &self,
        talk: &Mutex<Conversation<'_, N, F, G, R>>,
        conn: &Conn,
        place: &OpenSocket<'_, N, F, G>,
        delivers: bool,
    ) {
        if delivers {
            self.hear_on(talk, conn);
        }
        talk.lock(self.rt).end();
        stop_full(self.rt, place.station);
    }

    /// Reads until the session is in raw mode and returns the session's socket. It returns `None` if the session ended first.
    fn hear_until_raw<'t>(
        &self,
        talk: &Mutex<Conversation<'t, N, F, G, R>>,
        conn: &Conn,
    ) -> Option<OpenSocket<'t, N, F, G>> {
        for _ in self.rt.forever() {
            match self.hear(talk, conn) {
                ReadOutcome::More => {}
                ReadOutcome::Over | ReadOutcome::Gone => {
                    talk.lock(self.rt).end();
                    return None;
                }
            }
            if let Some(place) = talk.lock(self.rt).place() {
                return Some(place);
            }
        }
        unreachable!()
    }

    /// Reads until the session has ended or the client has disconnected. In the second case it shuts down the connection, so that a
    /// thread that is writing to the connection also returns.
    fn hear_on(&self, talk: &Mutex<Conversation<'_, N, F, G, R>>, conn: &Conn) {
        for _ in self.rt.forever() {
            match self.hear(talk, conn) {
                ReadOutcome::More => {}
                ReadOutcome::Over => break,
                ReadOutcome::Gone => {
                    conn.shutdown();
                    break;
                }
            }
        }
    }

    /// Reports to the host that the session's connection began in a way that no client uses, if it did.
    fn report_stranger(&self, talk: &Mutex<Conversation<'_, N, F, G, R>>, session: u32) {
        let is_strangers = talk.lock(self.rt).is_strangers();
        if is_strangers {
            self.host.notify(Notice::Strange { session });
        }
    }

    /// Reports to the host that a session restarted an interface, if it did.
    fn report_restart(&self, station: &Station<N, F, G, HubBus>, restarted: Option<Iface>) {
        if let Some(iface) = restarted {
            let bus = usize::from(station.number());
            self.host.notify(Notice::Restarted { bus, iface });
        }
    }

    /// Reports to the host that a session took an interface down, if it did.
    fn report_down(&self, station: &Station<N, F, G, HubBus>, downed: Option<Iface>) {
        if let Some(iface) = downed {
            let bus = usize::from(station.number());
            self.host.notify(Notice::WentDown { bus, iface });
        }
    }

    /// Reads one piece of input and carries it out.
    fn hear(&self, talk: &Mutex<Conversation<'_, N, F, G, R>>, conn: &Conn) -> ReadOutcome {
        let mut piece = [0_u8; PIECE];
        let count = match conn.read(&mut piece) {
            Ok(0) | Err(_) => return ReadOutcome::Gone,
            Ok(count) => count,
        };
        let moment = self.host.now();
        let mut talk = talk.lock(self.rt);
        let goes_on = talk.feed(self.alloc, &piece[..count], moment, &mut Out(conn));
        let station = talk.station();
        let (restarted, downed) = if self.host.wants_notices() {
            (talk.look_for_restart(), talk.look_for_down())
        } else {
            (None, None)
        };
        drop(talk);
        if let Some(station) = station {
            stop_full(self.rt, station);
            self.report_restart(station, restarted);
            self.report_down(station, downed);
        }
        if goes_on {
            ReadOutcome::More
        } else {
            ReadOutcome::Over
        }
    }
}
