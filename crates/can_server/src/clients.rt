//! The clients of a server and the connections of their sessions.
ghost use Rattle.std.specs.Prelude.{◌≡◌, IfOk, IsTrue, ◌↔◌, Any, option_map, MatchOption, None, true, not, set};
ghost use Rattle.can_server.specs.Clients.{Admits, IsFree, IsShutOut, NoneFree, all_asked, asked_for_room, is_idle, no_clients, raw_at};

use crate::conn::Conn;
use can_frame::Moment;
use std::alloc::{AllocError, Global};
use std::marker::Model;
use std::sync::Arc;

/// The largest number of sessions that run at the same time.
const MOST_AT_ONCE: usize = 64;

/// The time in microseconds after which a client may lose its slot if its session never entered raw mode.
const MOST_IDLE: u64 = 60_000_000;

/// The reason why a connection got no slot.
#[derive(Debug, Clone, Copy, PartialEq, Eq)]
pub enum NotAdmitted {
    /// The server admits no more clients.
    Closed,
    /// The server already has its largest number of sessions.
    Full,
}

/// The phase of a client's visit.
#[derive(Debug, Clone, Copy, PartialEq, Eq)]
pub enum Phase {
    /// The client connected at this time. Its session has not entered raw mode.
    New(Moment),
    /// The session of the client has entered raw mode.
    Raw,
    /// The client was idle when another client required a slot, so the server shut down the connection of the idle client.
    ShutOut,
}

impl Phase {
    /// Returns whether a client may lose its slot.
    fn is_idle(self, now: Moment) -> bool
        ensures { result ≡ is_idle now self }
    {
        match self {
            Phase::New(came) => came.micros() + MOST_IDLE <= now.micros(),
            Phase::Raw | Phase::ShutOut => false,
        }
    }
}

/// A client: its connection and the phase of its visit.
#[derive(Drop)]
pub struct Client {
    conn: Arc<Conn, Global>,
    stay: Phase,
}

/// The connections of the current sessions, at most 64. Contracts see the client in each slot, and whether the server is closed to
/// new clients.
#[derive(Drop)]
pub struct Clients {
    places: Vec<Option<Client>>,
    is_closed: bool,
}

impl Model for Clients {
    ghost use Rattle.std.specs.Prelude.{◌≡◌, length};
    ghost use Rattle.can_server.specs.Clients.{ClientsSeen};

    ghost Value = { ClientsSeen };

    ghost view = { λ g. record { places = g.places.items; is_closed = g.is_closed } };

    ghost invariant = { λ g. length g.places.items ≡ 64 };
}

impl Clients {
    /// Returns a list in which all slots are free. The memory for all slots is allocated here.
    pub fn new(alloc: Global) -> Result<Clients, AllocError>
        ensures { IfOk result (λ clients. clients ≡ no_clients) }
    {
        let mut places = Vec::with_capacity(alloc, MOST_AT_ONCE)?;
        for _ in 0..MOST_AT_ONCE {
            places.push(None)?;
        }
        Ok(Clients {
            places,
            is_closed: false,
        })
    }

    /// Admits a connection at this time and returns the index of its slot. It fails if all slots are taken or if the server is
    /// closed to new clients.
    pub fn admit(&mut self, conn: Arc<Conn, Global>, now: Moment) -> Result<usize, NotAdmitted>
        ensures { Admits self.old conn now result self.new }
    {
        if self.is_closed {
            return Err(NotAdmitted::Closed);
        }
        let Some(place) = self.free_place() else {
            return Err(NotAdmitted::Full);
        };
        let stay = Phase::New(now);
        self.places[place] = Some(Client { conn, stay });
        Ok(place)
    }

    /// Returns the connection of the client in this slot, if there is a client.
    pub(crate) fn conn(&self, place: usize) -> Option<Arc<Conn, Global>> {
        if place >= self.places.len() {
            return None;
        }
        match &self.places[place] {
            Some(client) => Arc::try_clone(&client.conn).ok(),
            None => None,
        }
    }

    // Returns the index of a free slot, if there is one.
    fn free_place(&self) -> Option<usize>
        ensures { MatchOption result (NoneFree self.now.places)
            (λ place. IsFree self.now.places place) }
    {
        for place in 0..self.places.len() {
            if self.places[place].is_none() {
                return Some(place);
            }
        }
        None
    }

    /// Records that the client in this slot entered raw mode. After that, the client cannot lose its slot.
    pub fn keep(&mut self, place: usize)
        ensures { self.new ≡ record self.old { places = raw_at self.old.places place } }
    {
        if place < self.places.len() {
            if let Some(client) = &mut self.places[place] {
                client.stay = Phase::Raw;
            }
        }
    }

    /// Shuts down the connections of idle clients to make room for another client. A client is idle if it connected at least 60
    /// seconds ago and its session has not entered raw mode. Returns whether a client that was shut out will soon free its slot.
    pub fn make_room(&mut self, now: Moment) -> bool
        ensures clients { self.new ≡ record self.old { places = all_asked now self.old.places } }
        ensures soon { IsTrue result ↔ Any IsShutOut self.new.places }
    {
        for place in 0..self.places.len() {
            ask_for_room(&mut self.places[place], now);
        }
        self.places.iter().any(is_shut_out)
    }

    /// Frees a place.
    pub fn leave(&mut self, place: usize)
        ensures { self.new ≡ record self.old { places = set self.old.places place None } }
    {
        if place < self.places.len() {
            self.places[place] = None;
        }
    }

    /// Returns whether the server is closed to new clients.
    pub fn is_closed(&self) -> bool
        ensures { result ≡ self.now.is_closed }
    {
        self.is_closed
    }

    /// Closes the server to new clients and shuts down all connections. Returns whether the server was open before.
    pub fn close(&mut self) -> bool
        ensures was_open { result ≡ not self.old.is_closed }
        ensures closed { self.new ≡ record self.old { is_closed = true } }
    {
        let was_open = !self.is_closed;
        self.is_closed = true;
        for client in self.places.iter().flatten() {
            client.conn.shutdown();
        }
        was_open
    }
}

/// Shuts out the client in a slot if the client is idle.
fn ask_for_room(place: &mut Option<Client>, now: Moment)
    ensures { place.new ≡ option_map (asked_for_room now) place.old }
{
    if let Some(client) = place {
        if client.stay.is_idle(now) {
            client.stay = Phase::ShutOut;
            client.conn.shutdown();
        }
    }
}

/// Returns whether the client in a slot was shut out.
fn is_shut_out(place: &Option<Client>) -> bool
    ensures { IsTrue result ↔ IsShutOut place.now }
{
    match place {
        Some(client) => client.stay == Phase::ShutOut,
        None => false,
    }
}
