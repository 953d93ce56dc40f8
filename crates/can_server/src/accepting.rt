use crate::acceptor::Acceptor;
use crate::clients::NotAdmitted;
use crate::conn::Conn;
use crate::notice::Notice;
use crate::server::Server;
use crate::serving::Clock;
use can_fault::FaultSource;
use can_frame::Moment;
use can_hub::Tally;
use can_proto::Cause;
use can_station::{BusName, Gate};
use std::alloc::Global;
use std::sync::{Arc, Wait};
use std::thread::Threads;
use std::time::Duration;
use std::{thread, time};

/// The pause in milliseconds after an acceptor could not accept a connection, for example because no file descriptors were left.
const AFTER_A_FAULT_MS: u64 = 100;

/// The number of failed attempts to accept (about 6 seconds) that count as one session.
const TRIES: u32 = 64;

/// How often a new connection checks for a free slot while idle clients disconnect. This takes about one second.
const TURNS: u32 = 1_000;

/// The data of an admitted client: its acceptor, its slot in the list of clients, and the number of its session.
#[derive(Drop)]
pub struct Visit<'d> {
    pub acceptor: &'d Acceptor,
    pub place: usize,
    pub session: u32,
}

/// The result of waiting for a client at an acceptor.
#[derive(Drop)]
enum Next {
    /// The client was admitted and has the slot with this index.
    Admitted(usize),
    /// All attempts to accept failed, or the server could not admit the client.
    Nobody,
    /// The server is closed.
    Closed,
}

// The methods of a server that run the acceptors.
impl<
    'a,
    N: BusName + Send + Sync,
    F: FaultSource + Drop + Send,
    G: Gate + Drop + Send + Sync,
    C: Clock + Sync,
    R: Threads + Wait + time::Clock + Sync,
> Server<'a, N, F, G, C, R> {
    /// Accepts connections until the acceptor has accepted all its sessions or the server is closed. A thread serves each
    /// connection. Finally, this method closes the acceptor and waits for these threads.
    pub fn accept_all(&self, acceptor: &Acceptor) {
        thread::scope(thread::scope_env(), self.rt, |scope| {
            for before in 0..self.most_connections(acceptor) {
                let session = before + 1;
                match self.next_client(acceptor, session) {
                    Next::Admitted(place) => {
                        let visit = Visit {
                            acceptor,
                            place,
                            session,
                        };
                        if scope.spawn(move || self.run_session(&visit)).is_err() {
                            self.release(place);
                            self.report_end(session, Tally::none());
                        }
                    }
                    Next::Nobody => {}
                    Next::Closed => break,
                }
            }
            acceptor.close();
            acceptor.turn_away();
        });
    }
}

impl<'a, N: BusName, F: FaultSource + Drop, G: Gate + Drop, C: Clock, R: Wait + time::Clock> Server<
    'a,
    N,
    F,
    G,
    C,
    R,
> {
    /// Returns how many connections an acceptor accepts. Each connection counts as a session of the acceptor. In a long run, only
    /// sessions that entered raw mode count, so there is no limit on connections.
    fn most_connections(&self, acceptor: &Acceptor) -> u32 {
        if self.is_long {
            u32::MAX
        } else {
            acceptor.sessions()
        }
    }

    /// Waits at an acceptor for the next connection and admits it. After a failed attempt to accept, it pauses and tries again.
    fn next_client(&self, acceptor: &Acceptor, session: u32) -> Next {
        for _ in 0..TRIES {
            match acceptor.accept() {
                Ok(conn) => return self.admit(conn, session),
                Err(_) if self.is_over(acceptor) => return Next::Closed,
                Err(_) => thread::sleep(self.rt, Duration::from_millis(AFTER_A_FAULT_MS)),
            }
        }
        Next::Nobody
    }

    /// Returns whether the acceptor admits no more clients.
    fn is_over(&self, acceptor: &Acceptor) -> bool {
        acceptor.is_used_up() || self.clients.lock(self.rt).is_closed()
    }

    /// Frees a client's slot after its session has ended, or if no thread could be started for the session.
    pub fn release(&self, place: usize) {
        self.clients.lock(self.rt).leave(place);
    }

    /// Reports to the host that a session has ended.
    pub fn report_end(&self, session: u32, tally: Tally) {
        self.host.notify(Notice::Went {
            session,
            refused: tally.refused,
            dropped: tally.dropped,
        });
    }

    /// Admits a connection if the server is not closed. If all slots are taken and no session is idle, the client receives `too
    /// many sessions`.
    fn admit(&self, conn: Conn, session: u32) -> Next {
        let from = if self.host.wants_notices() {
            conn.peer()
        } else {
            None
        };
        let Ok(conn) = Arc::new(self.alloc, conn) else {
            return Next::Nobody;
        };
        match self.find_place(&conn) {
            Ok(place) => {
                self.host.notify(Notice::Came { session, from });
                Next::Admitted(place)
            }
            Err(NotAdmitted::Closed) => Next::Closed,
            Err(NotAdmitted::Full) => {
                conn.refuse(Cause::TooManySessions);
                conn.shutdown();
                self.host.notify(Notice::TurnedAway { session, from });
                Next::Nobody
            }
        }
    }

    /// Finds a slot for a connection. If all slots are taken, it shuts out idle clients and waits until one of them disconnects.
    fn find_place(&self, conn: &Arc<Conn, Global>) -> Result<usize, NotAdmitted> {
        for _ in 0..TURNS {
            let now = self.host.now();
            let found = self.ask_for_place(conn, now);
            if found != Err(NotAdmitted::Full) || !self.clients.lock(self.rt).make_room(now) {
                return found;
            }
            thread::sleep(self.rt, Duration::from_millis(1));
        }
        Err(NotAdmitted::Full)
    }

    /// Takes a free slot, if there is one.
    fn ask_for_place(&self, conn: &Arc<Conn, Global>, now: Moment) -> Result<usize, NotAdmitted> {
        match Arc::try_clone(conn) {
            Ok(shared) => self.clients.lock(self.rt).admit(shared, now),
            Err(_) => Err(NotAdmitted::Full),
        }
    }
}
