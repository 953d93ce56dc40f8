use crate::acceptor::Acceptor;
use crate::clients::Clients;
use crate::serving::Clock;
use can_fault::FaultSource;
use can_hub::{Buses, ReturnedPasses};
use can_station::{BusName, Gate};
use std::alloc::{AllocError, Global};
use std::io::Read;
use std::net::Shutdown;
use std::os::unix::net::UnixStream;
use std::sync::atomic::{AtomicBool, Ordering};
use std::sync::{Mutex, Wait};
use std::thread::Threads;
use std::{thread, time};

/// The acceptors of a server, and the stream that closes these acceptors when it ends.
#[derive(Drop)]
struct Closing<'d> {
    acceptors: &'d [Acceptor],
    until: &'d UnixStream,
}

/// The values that all threads of a server share.
#[derive(Drop)]
pub struct Server<'a, N: BusName, F: FaultSource + Drop, G: Gate + Drop, C, R> {
    pub rt: &'a R,
    pub alloc: Global,
    pub buses: &'a Buses<N, F, G>,
    pub host: &'a C,
    pub clients: &'a Mutex<Clients>,
    pub returned: &'a Mutex<ReturnedPasses<N>>,
    /// Whether this is a long run. In a long run, a session may reuse the pass of a session that has ended, and a session counts
    /// only once it is in raw mode.
    pub is_long: bool,
    /// Whether all sessions have ended.
    pub is_ending: &'a AtomicBool,
}

impl<
    'a,
    N: BusName + Send + Sync,
    F: FaultSource + Drop + Send,
    G: Gate + Drop + Send + Sync,
    C: Clock + Sync,
    R: Threads + Wait + time::Clock + Sync,
> Server<'a, N, F, G, C, R> {
    /// Runs the server until it finishes. The drivers run until all sessions have ended.
    pub fn run(
        &self,
        acceptors: &[Acceptor],
        until: Option<&UnixStream>,
    ) -> Result<(), AllocError> {
        thread::scope(thread::scope_env(), self.rt, |scope| {
            let mut started = Ok(());
            for bus in 0..self.buses.count() {
                if scope.spawn(move || self.drive(bus)).is_err() {
                    started = Err(AllocError);
                }
            }
            if let Some(until) = until {
                let closing = Closing { acceptors, until };
                if scope.spawn(move || self.close_after(&closing)).is_err() {
                    started = Err(AllocError);
                }
            }
            let served = match started {
                Ok(()) => self.serve_all(acceptors),
                Err(AllocError) => Err(AllocError),
            };
            self.finish(until);
            served
        })
    }

    /// Serves the sessions from all acceptors.
    fn serve_all(&self, acceptors: &[Acceptor]) -> Result<(), AllocError> {
        thread::scope(thread::scope_env(), self.rt, |scope| {
            for acceptor in acceptors {
                if scope.spawn(move || self.accept_all(acceptor)).is_err() {
                    self.close(acceptors);
                    return Err(AllocError);
                }
            }
            Ok(())
        })
    }
}

impl<'a, N: BusName, F: FaultSource + Drop, G: Gate + Drop, C: Clock, R: Wait + time::Clock> Server<
    'a,
    N,
    F,
    G,
    C,
    R,
> {
    /// Makes all other threads finish after the last session has ended.
    fn finish(&self, until: Option<&UnixStream>) {
        let _ = self.clients.lock(self.rt).close();
        if let Some(until) = until {
            let _ = until.shutdown(Shutdown::Both);
        }
        self.is_ending.store(true, Ordering::SeqCst);
        self.buses.stop_all(self.rt);
    }

    /// Waits for the end of a stream and then closes the server.
    fn close_after(&self, closing: &Closing<'_>) {
        let mut until = closing.until;
        let mut piece = [0_u8; 64];
        for _ in self.rt.forever() {
            match until.read(&mut piece) {
                Ok(0) | Err(_) => break,
                Ok(_) => {}
            }
        }
        self.close(closing.acceptors);
    }

    /// Admits no more clients and ends the current sessions. A thread that is waiting at an acceptor returns.
    fn close(&self, acceptors: &[Acceptor]) {
        if !self.clients.lock(self.rt).close() {
            return;
        }
        for acceptor in acceptors {
            acceptor.close();
        }
    }
}
