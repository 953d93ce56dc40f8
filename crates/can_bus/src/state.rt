ghost use Rattle.std.specs.Prelude.{◌≡◌, ◌<◌, [], List, length, IfOk, IfSome, IsNone, ◌↔◌, ◌==◌, not};
ghost use Rattle.can_arbiter.specs.Keys.{IsWinner, IsIdle};
ghost use Rattle.std.specs.List.{list_any};
ghost use Rattle.can_bus.specs.Changes.{AreReady};
ghost use Rattle.can_bus.specs.Heads.{ReportsNext};
ghost use Rattle.can_bus.specs.Lean.{Carries, IsReady, record_of};
ghost use Rattle.can_bus.specs.State.{IsKept, kept_parts};
ghost use Rattle.can_event.specs.declared.entry.Entry.{Entry as AnEntry};

use crate::countdown::Countdown;
use crate::interface::Interface;
use crate::interfaces;
use crate::socket::Socket;
use can_arbiter::{Arbiter, IndexArbiter};
use can_attempt::Nodes;
use can_confine::Counters;
use can_event::{BusConfig, Event, Pending, Received, Reply};
use can_frame::{Frame, Iface};
use can_queue::{BoundedQueue, QueueError, RingQueue};
use can_record::sent_reply;
use std::alloc::Global;
use std::marker::Model;

/// The state that a bus keeps besides its record, so that no call has to search the entries.
///
/// There is always room for 64 sockets.
#[derive(Drop)]
pub struct State<T: BoundedQueue<Pending>, R: BoundedQueue<Received>, A: Arbiter> {
    /// The interfaces, by number.
    pub(crate) interfaces: Vec<Interface<T>>,
    /// The arbitration keys of the interfaces.
    pub(crate) arbiter: A,
    /// The error counters of the interfaces.
    pub(crate) nodes: Nodes,
    /// The number of attempts until the automatic restart of each interface.
    pub(crate) countdown: Countdown,
    /// The open sockets, by increasing number.
    pub(crate) sockets: Vec<Socket<R>>,
    /// The number of sockets ever opened, which is the number of the next socket.
    pub(crate) opened: u32,
    /// The number of frames tried, which is the number of the next attempt.
    pub(crate) tried: u64,
}

/// The state of the program's buses, with ring buffers as queues.
pub type RingState = State<RingQueue<Pending>, RingQueue<Received>, IndexArbiter>;

impl<T: BoundedQueue<Pending>, R: BoundedQueue<Received>, A: Arbiter> Model for State<T, R, A> {
    ghost use Rattle.std.specs.Prelude.{◌≤◌, vec_capacity};
    ghost use Rattle.can_bus.specs.State.{Parts};

    ghost Value = { Parts };

    ghost view = { λ s. record {
      interfaces = s.interfaces.items;
      keys = A.keys_of s.arbiter;
      nodes = s.nodes;
      left = s.countdown;
      sockets = s.sockets.items;
      opened = s.opened;
      tried = s.tried;
    } };

    ghost invariant = { λ s. 64 ≤ vec_capacity s.sockets };
}

impl<T: BoundedQueue<Pending>, R: BoundedQueue<Received>, A: Arbiter> State<T, R, A> {
    /// Returns the state of a bus without events.
    pub(crate) fn new(alloc: Global, config: BusConfig) -> Result<State<T, R, A>, QueueError>
        ensures { IfOk result (λ s. s ≡ kept_parts config []) }
    {
        let interfaces = interfaces::make(alloc, config.ifaces, config.tx_capacity as usize)?;
        let sockets = Vec::with_capacity(alloc, 64)?;
        Ok(State {
            interfaces,
            arbiter: A::new(),
            nodes: Nodes {
                count: config.ifaces,
                counters: [Counters::zero(); 16],
            },
            countdown: Countdown::new(),
            sockets,
            opened: 0,
            tried: 0,
        })
    }

    /// Carries out an event if the record has room for one more entry, and returns its reply.
    ///
    /// Only `Open` and `SetFilters` take memory. If memory is refused, the reply is `NoMemory` and
    /// nothing has changed.
    pub(crate) fn answer(&mut self, alloc: Global, config: BusConfig, event: &Event) -> Reply
        requires { IsReady config self.old }
        ensures { (past : List AnEntry) →
            IsKept (record_of config past) self.old → length past < config.limit →
            Carries config past event.now result self.new }
    {
        match event {
            Event::Open(iface, capacity) => self.open(alloc, *iface, *capacity),
            Event::Close(id) => self.close(*id),
            Event::SetFilters(id, filters) => self.set_filters(alloc, *id, filters),
            Event::SetOption(id, option) => self.set_option(*id, *option),
            Event::Send(id, frame) => sent_reply(&self.send(*id, *frame)),
            Event::Receive(id) => self.receive(*id),
            Event::Attempt(moment, verdict) => {
                Reply::Attempted(self.attempt(config, *moment, *verdict))
            }
            Event::Restart(iface, moment) => self.restart(*iface, *moment),
            Event::Down(iface, _) => self.down(*iface),
        }
    }

    /// Returns the number of frames tried.
    pub fn tried(&self) -> u64
        ensures { result ≡ self.now.tried }
    {
        self.tried
    }

    /// Returns the interface that wins the bus, if any competes.
    pub fn winner(&self) -> Option<Iface>
        ensures first { IfSome result (λ w. IsWinner self.now.keys w) }
        ensures none { IsNone result ↔ IsIdle self.now.keys }
    {
        self.arbiter.winner()
    }

    /// Returns the interface that wins the bus, with the first frame of its queue, if any competes.
    pub fn next_head(&self) -> Option<(Iface, Frame)>
        requires { AreReady self.now }
        ensures { ReportsNext self.now result }
    {
        let winner = self.arbiter.winner()?;
        let interface = &self.interfaces[winner.number() as usize];
        let pending = interface.head()?;
        Some((winner, pending.frame))
    }

    /// Returns whether an automatic restart is pending for any interface.
    pub fn is_counting(&self) -> bool
        ensures { result ≡ list_any (λ n. not (n == 0)) self.now.left }
    {
        self.countdown.is_running()
    }

    /// Returns the error counters of all 16 places.
    pub fn counters(&self) -> [Counters; 16]
        ensures { result ≡ self.now.nodes.counters }
    {
        self.nodes.counters
    }
}
