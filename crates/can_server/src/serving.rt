ghost use Rattle.std.specs.Prelude.{◌≡◌, length, IfOk};

use crate::acceptor::Acceptor;
use crate::clients::Clients;
use crate::notice::Notice;
use crate::scribing::{Discard, Keeper, Scribe};
use crate::server::Server;
use can_fault::FaultSource;
use can_frame::Moment;
use can_hub::{Hub, Leaves, ReturnedPasses};
use can_station::{BusName, Gate, Pass};
use std::alloc::{AllocError, Global};
use std::os::unix::net::UnixStream;
use std::sync::atomic::AtomicBool;
use std::sync::{Mutex, Wait};
use std::thread::Threads;
use std::{thread, time};

/// The largest number of passes that a bus has.
const MOST_PASSES: u32 = 4096;

/// The default maximum size of a write in bytes. Some clients, such as those of python-can, read 1,024 bytes at a time and lose a
/// message that is cut.
const DEFAULT_WRITE: usize = 1024;

/// The host of a server. It supplies the time and receives reports. A host must implement only `now`; the default methods ignore
/// reports. No lock is held during a report.
pub trait Clock {
    /// Returns the current time.
    fn now(&self) -> Moment;

    /// Returns whether the host wants reports about sessions, which cost a check in every call of a session. The server may query
    /// this at any time, and the answer must always be the same.
    fn wants_notices(&self) -> bool {
        false
    }

    /// Returns the largest number of bytes of items in one write to a client. An item is never cut. The server calls this method
    /// once for each session.
    fn write_bytes(&self) -> usize {
        DEFAULT_WRITE
    }

    /// Receives a notice. If the host wants no reports about sessions, their notices contain no addresses and no counts.
    fn notify(&self, _notice: Notice) {}
}

/// Runs the sessions from all acceptors over the buses of a hub. Returns all passes, in one list for each bus. Each bus has a
/// driver, which performs steps while an interface has a frame to send or is waiting for its restart. Each acceptor has a thread
/// that accepts connections. Each session has a thread that reads and, in raw mode, a thread that delivers items. The function
/// returns after the acceptors have accepted all their sessions and these sessions have ended. It also returns after the end of
/// `until`: the server then admits no more clients and shuts down the current sessions. An acceptor is closed after its last
/// session, so that the system refuses later connections. If 64 sessions are running, the next client receives `too many sessions`
/// and counts as accepted. There is one exception. If a session began at least 60 seconds ago by the clock and has not entered raw
/// mode, the server closes it and gives its slot to the new client. If an acceptor cannot accept a connection, for example because
/// no file descriptors are left, it tries again every 100 ms. 64 failed attempts to accept count as one session. A fault of a
/// session's connection, or a lack of memory for a session, ends only that session. The result is `AllocError` if there was not
/// enough memory to start the server. All threads that were started have then finished, and the stations are stopped.
pub fn serve<
    N: BusName + Send + Sync,
    F: FaultSource + Drop + Send,
    G: Gate + Drop + Send + Sync,
    L: Leaves,
    C: Clock + Sync,
    R: Threads + Wait + time::Clock + Sync,
>(
    rt: &R,
    alloc: Global,
    hub: &Hub<N, F, G, L>,
    acceptors: &[Acceptor],
    host: &C,
    until: Option<&UnixStream>,
) -> Result<Vec<Vec<Pass<N>>>, AllocError>
    ensures { IfOk result (λ passes. length passes.items ≡ length hub.now) }
{
    serve_with::<_, _, _, _, _, Discard, _>(rt, alloc, hub, acceptors, host, until, None)
}

/// A server for the buses of long runs, and the scribes for which no thread has started yet.
#[derive(Drop)]
struct LongServer<
    's,
    'a,
    'k,
    N: BusName,
    F: FaultSource + Drop,
    G: Gate + Drop,
    C,
    R,
    K: Keeper + Drop,
> {
    server: &'s Server<'a, N, F, G, C, R>,
    acceptors: &'a [Acceptor],
    until: Option<&'a UnixStream>,
    scribes: &'s Mutex<Vec<Scribe<'k, N, K>>>,
}

impl<
    's,
    'a,
    'k,
    N: BusName + Send + Sync,
    F: FaultSource + Drop + Send,
    G: Gate + Drop + Send + Sync,
    C: Clock + Sync,
    R: Threads + Wait + time::Clock + Sync,
    K: Keeper + Drop + Send,
> LongServer<'s, 'a, 'k, N, F, G, C, R, K> {
    /// Runs the server until it finishes, with a scribe for each bus. The scribes continue until all other threads have finished.
    fn run(&self) -> Result<(), AllocError> {
        thread::scope(thread::scope_env(), self.server.rt, |scope| {
            let mut is_started = true;
            for _ in 0..self.server.buses.count() {
                is_started &= scope.spawn(move || self.keep_all()).is_ok();
            }
            let served = if is_started {
                self.serve()
            } else {
                self.server.buses.stop_all(self.server.rt);
                Err(AllocError)
            };
            self.server.buses.end_entries(self.server.rt);
            served
        })
    }

    /// Takes the next scribe and gives all entries of its bus to its keeper.
    fn keep_all(&self) {
        let next = self.scribes.lock(self.server.rt).pop();
        let Some(scribe) = next else {
            return;
        };
        let bus = scribe.bus();
        if bus < self.server.buses.count() {
            let _ = scribe.keep_all(self.server.rt, self.server.buses.station(bus));
        }
    }

    /// Runs the sessions from the acceptors.
    fn serve(&self) -> Result<(), AllocError> {
        self.server.run(self.acceptors, self.until)
    }
}

/// Runs a server as `serve` does, with scribes. In a long run, each bus must have one scribe; without a scribe, the sessions of a
/// bus wait as soon as the bus's tail is full. With scribes, a session may reuse the pass of a session that has ended, so the
/// number of sessions in a run has no limit. A session then counts for its acceptor only once it is in raw mode. A session that
/// enters raw mode after the last one that counts receives `too many sessions`. The scribes continue until the other threads have
/// finished, and then give their keepers the last entries. The result is `AllocError` as for `serve`; the scribes have then
/// finished, too.
pub fn serve_with<
    'x,
    N: BusName + Send + Sync,
    F: FaultSource + Drop + Send,
    G: Gate + Drop + Send + Sync,
    L: Leaves,
    C: Clock + Sync,
    K: Keeper + Drop + Send,
    R: Threads + Wait + time::Clock + Sync,
>(
    rt: &'x R,
    alloc: Global,
    hub: &'x Hub<N, F, G, L>,
    acceptors: &'x [Acceptor],
    host: &'x C,
    until: Option<&'x UnixStream>,
    scribes: Option<Vec<Scribe<'x, N, K>>>,
) -> Result<Vec<Vec<Pass<N>>>, AllocError>
    ensures { IfOk result (λ passes. length passes.items ≡ length hub.now) }
{
    let buses = hub.buses();
    let clients = Clients::new(alloc);
    let returned = ReturnedPasses::new(alloc, hub.count(), most_passes(acceptors));
    let (Ok(clients), Ok(returned)) = (clients, returned) else {
        buses.stop_all(rt);
        return Err(AllocError);
    };
    let (clients, returned) = (Mutex::new(clients), Mutex::new(returned));
    let is_ending = AtomicBool::new(false);
    let server = Server {
        rt,
        alloc,
        buses,
        host,
        clients: &clients,
        returned: &returned,
        is_long: scribes.is_some(),
        is_ending: &is_ending,
    };
    let served = match scribes {
        Some(scribes) => {
            let scribes = Mutex::new(scribes);
            let long = LongServer {
                server: &server,
                acceptors,
                until,
                scribes: &scribes,
            };
            long.run()
        }
        None => server.run(acceptors, until),
    };
    drop(server);
    served?;
    Ok(returned.into_inner().into_lists(hub.count()))
}

/// Returns the largest number of passes that a driver and the sessions from these acceptors take from one bus.
fn most_passes(acceptors: &[Acceptor]) -> usize {
    let mut most = 1_u32;
    for acceptor in acceptors {
        most = most.saturating_add(acceptor.sessions());
    }
    most.min(MOST_PASSES) as usize
}
