ghost use Rattle.std.specs.Prelude.{◌≡◌, ◌++◌, IsTrue, false};
ghost use Rattle.can_hub.specs.PassSteps.{PassStep};
ghost use Rattle.can_proto.specs.Messages.{messages_of, kept_of};
ghost use Rattle.can_dialog.specs.Sessions.{Wrote};
ghost use Rattle.can_dialog.specs.Turns.{greeting};
ghost use Rattle.can_server.specs.Conversations.{DeliversItems, EndsSession, HearsItems};
ghost use Rattle.can_server.specs.Openings.{after_bytes};

use crate::batch::Batch;
use crate::opening::Opening;
use can_bus::SocketId;
use can_dialog::{Session, Stage};
use can_fault::FaultSource;
use can_frame::{Iface, Moment};
use can_hub::{Buses, HubBus, LockedPort, PassPort, ReturnedPasses, Tally};
use can_station::{BusName, Gate, Pass, Station};
use std::alloc::{AllocError, Global};
use std::io::Write;
use std::sync::{Mutex, Wait};

/// The reply to a command that was carried out and has no other reply.
const DONE: &[u8] = b"< ok >";

/// The socket of a session in raw mode, and the interface of that socket.
#[derive(Drop)]
pub struct OpenSocket<'a, N: BusName, F: FaultSource + Drop, G: Gate + Drop> {
    pub station: &'a Station<N, F, G, HubBus>,
    pub iface: Iface,
    pub socket: SocketId,
}

/// A session and its port. The two threads of the session share this value under a lock.
#[derive(Drop)]
pub struct Conversation<'a, N: BusName, F: FaultSource + Drop, G: Gate + Drop, R: Wait> {
    session: Session,
    port: PassPort<'a, N, F, G, R>,
    batch: Batch,
    /// Whether the connection comes from a client, as far as its first bytes show.
    opening: Opening,
    /// Whether the replies to the last piece of input are longer than a single `< ok >`.
    said_more: bool,
}

impl<'a, N: BusName, F: FaultSource + Drop, G: Gate + Drop, R: Wait> Conversation<'a, N, F, G, R> {
    /// Returns a new session. The session may reuse one of the passes in `spares`. It writes at most `most_bytes` bytes of items at
    /// once.
    pub fn new(
        rt: &'a R,
        alloc: Global,
        buses: &'a Buses<N, F, G>,
        spares: Option<&'a Mutex<ReturnedPasses<N>>>,
        most_bytes: usize,
    ) -> Result<Conversation<'a, N, F, G, R>, AllocError> {
        Ok(Conversation {
            session: Session::new(alloc, 0)?,
            port: PassPort::with_spares(rt, alloc, buses, spares),
            batch: Batch::new(alloc, most_bytes)?,
            opening: Opening::Blank,
            said_more: false,
        })
    }

    /// Writes the greeting. Returns whether the session continues.
    pub fn greet<W: Write>(&mut self, out: &mut W) -> bool
        ensures { IsTrue result → Wrote W.contents out.old greeting out.new }
    {
        match self.session.stage() {
            Stage::NoBus => self.session.greet(out).is_ok(),
            _ => false,
        }
    }

    /// Carries out a piece of the client's input, and returns whether the session continues. If no client would begin a connection
    /// like this, nothing is carried out. If the client does not accept the output, the session ends.
    pub fn feed<W: Write>(
        &mut self,
        alloc: Global,
        piece: &[u8],
        moment: Moment,
        out: &mut W,
    ) -> bool
        ensures opening { self.new.opening ≡ after_bytes self.old.opening piece.now }
        ensures stranger { self.new.opening ≡ Opening.Stranger → (result ≡ false)
            × (self.new.session ≡ self.old.session) × (self.new.port ≡ self.old.port)
            × (out.new ≡ out.old) }
        ensures hears { IsTrue result → HearsItems (PassStep F) W.contents moment
            (messages_of (self.old.session.kept ++ piece.now)) self.old.session.dialog
            self.old.port out.old self.new.session.dialog self.new.port out.new }
        ensures keeps { IsTrue result →
            self.new.session.kept ≡ kept_of (self.old.session.kept ++ piece.now) }
    {
        self.opening = self.opening.after(piece);
        if self.opening == Opening::Stranger {
            return false;
        }
        self.carry_out(alloc, piece, moment, out)
    }

    /// Carries out a piece of the client's input for `feed`, which has already checked how the connection begins.
    fn carry_out<W: Write>(
        &mut self,
        alloc: Global,
        piece: &[u8],
        moment: Moment,
        out: &mut W,
    ) -> bool
        ensures opening { self.new.opening ≡ self.old.opening }
        ensures hears { IsTrue result → HearsItems (PassStep F) W.contents moment
            (messages_of (self.old.session.kept ++ piece.now)) self.old.session.dialog
            self.old.port out.old self.new.session.dialog self.new.port out.new }
        ensures keeps { IsTrue result →
            self.new.session.kept ≡ kept_of (self.old.session.kept ++ piece.now) }
    {
        let mut port = LockedPort::new(self.port.take());
        let fed = self
            .batch
            .hear(&mut self.session, alloc, piece, moment, &mut port);
        self.port = port.into_port();
        if fed.is_err() {
            return false;
        }
        self.said_more = self.batch.waiting() > DONE.len();
        if !self.batch.write(out) {
            self.end();
            return false;
        }
        !self.is_over()
    }

    /// Sends up to `waiting` items to the client, but at most 256. Returns the number of items received, or `None` if there are no
    /// more. The items are received under one hold of the bus's lock and written afterwards. If the client does not accept them,
    /// the session ends.
    pub fn deliver<W: Write>(&mut self, waiting: u64, out: &mut W) -> Option<u64>
        ensures { DeliversItems (PassStep F) W.contents waiting self.old.session self.old.port
            out.old result self.new.session self.new.port out.new }
    {
        let mut port = LockedPort::new(self.port.take());
        let taken = self.batch.take(&self.session, waiting, &mut port);
        self.port = port.into_port();
        if !self.batch.write_items(taken, out) {
            self.end();
            return None;
        }
        if taken.are_items {
            Some(taken.rooms as u64)
        } else {
            None
        }
    }

    /// Ends the session.
    pub fn end(&mut self)
        ensures opening { self.new.opening ≡ self.old.opening }
        ensures ends { EndsSession (PassStep F) self.old.session self.old.port
            self.new.session self.new.port }
    {
        let _ = self.session.end(&mut self.port);
    }

    /// Returns whether the connection began in a way that no client uses.
    pub fn is_strangers(&self) -> bool {
        self.opening == Opening::Stranger
    }

    /// Returns whether the replies to the last piece of input are longer than a single `< ok >`. If so, the client can read several
    /// messages that arrive together.
    pub fn said_more(&self) -> bool {
        self.said_more
    }

    /// Returns whether the session has ended.
    pub fn is_over(&self) -> bool {
        self.session.stage() == Stage::Ended
    }

    /// Returns the station that the session has entered, if any.
    pub fn station(&self) -> Option<&'a Station<N, F, G, HubBus>> {
        self.port.station()
    }

    /// Returns the open socket of a session that is in raw mode.
    pub fn place(&self) -> Option<OpenSocket<'a, N, F, G>> {
        match (self.session.stage(), self.port.station()) {
            (Stage::Raw(raw), Some(station)) => Some(OpenSocket {
                station,
                iface: raw.iface,
                socket: raw.socket,
            }),
            _ => None,
        }
    }

    /// Returns the interface that the session has restarted since the last call, if any. An interface that the session has taken
    /// down again does not count.
    pub fn look_for_restart(&mut self) -> Option<Iface> {
        self.port.take_restarted()
    }

    /// Returns the interface that the session has taken down since the last call, if any. An interface that the session has
    /// restarted again does not count.
    pub fn look_for_down(&mut self) -> Option<Iface> {
        self.port.take_downed()
    }

    /// Returns the counts of the calls that the session made.
    pub fn tally(&self) -> Tally {
        self.port.tally()
    }

    /// Returns the session's pass, if the session entered a station.
    pub fn into_pass(self) -> Option<Pass<N>> {
        let Conversation { port, .. } = self;
        port.into_pass()
    }
}
