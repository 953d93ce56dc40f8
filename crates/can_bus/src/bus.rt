ghost use Rattle.std.specs.Prelude.{◌≡◌, ◌≢◌, ◌<◌, true, [], length, Ok, IfOk, OnOk, ◌↔◌};
ghost use Rattle.can_bus.specs.Answer.{Answers};
ghost use Rattle.can_record.specs.Outcomes.{done_reply};
ghost use Rattle.can_bus.specs.Attempts.{winner};
ghost use Rattle.can_bus.specs.AutoRestart.{is_counting};
ghost use Rattle.can_bus.specs.Headline.{Headline};
ghost use Rattle.can_bus.specs.Heads.{next_head};
ghost use Rattle.can_event.specs.Events.{IsConfig, IsLongConfig};
ghost use Rattle.can_event.specs.Replies.{entry_of, taken_reply};
ghost use Rattle.can_bus.specs.Lean.{record_of};
ghost use Rattle.can_bus.specs.Legal.{IsLegal};
ghost use Rattle.can_bus.specs.Run.{IsAnswered};
ghost use Rattle.can_bus.specs.State.{IsKept};
ghost use Rattle.can_bus.specs.Stats.{socket_stats_of, iface_stats_of, all_counts};
ghost use Rattle.can_record.specs.Tapes.{tape};
ghost use Rattle.can_event.specs.declared.event.Event.TheVariants as event;
ghost use Rattle.can_event.specs.declared.reply.Reply.TheVariants as reply;

use crate::state::State;
use can_arbiter::{Arbiter, IndexArbiter, ScanArbiter};
use can_confine::Counters;
use can_event::{
    Attempt, BusConfig, Closed, Entry, Event, IfaceStats, Opt, Pending, Received, Refusal, Reply,
    SocketId, SocketStats,
};
use can_fault::Verdict;
use can_filter::FilterSet;
use can_frame::{Frame, Iface, Moment};
use can_queue::{BoundedQueue, ListQueue, RingQueue};
use can_record::Record;
use std::alloc::{AllocError, Global};
use std::marker::Model;
use thiserror::Error;

/// Why a bus could not be made.
#[derive(Debug, Clone, Copy, PartialEq, Eq, Error)]
pub enum BusFault {
    /// The configuration is outside the limits of a bus.
    #[error("bad bus")]
    BadConfig,
    /// Memory was refused.
    #[error("no memory")]
    NoMemory,
}

impl From<AllocError> for BusFault {
    ghost use Rattle.can_bus.specs.declared.bus.BusFault.TheVariants.{NoMemory};

    ghost from_gives = { λ _ fault. fault ≡ NoMemory };

    fn from(_refused: AllocError) -> BusFault {
        BusFault::NoMemory
    }
}

/// A bus: interfaces that share one wire, and the sockets open on them.
///
/// Each event call is answered from the bus's record only, and adds one entry to it. A call that is
/// refused for a full record or for lack of memory adds no entry and changes nothing. Contracts see
/// a bus as its configuration and its history. The laws of `BoundedQueue` describe the queues for
/// frames and items, and the laws of `Arbiter` describe the arbiter.
///
/// Only the events `open` and `set_filters` take memory. `new` reserves the record (32 bytes per
/// entry and 76 for its FD frame), the transmit queues and the places of 64 sockets. A call on a
/// socket searches the open sockets, of which there are at most 64.
#[derive(Drop)]
pub struct Bus<T: BoundedQueue<Pending>, R: BoundedQueue<Received>, A: Arbiter> {
    alloc: Global,
    record: Record,
    state: State<T, R, A>,
}

/// The bus of the program, with ring buffers as queues.
pub type RingBus = Bus<RingQueue<Pending>, RingQueue<Received>, IndexArbiter>;

/// The simplest bus, with lists as queues.
pub type ListBus = Bus<ListQueue<Pending>, ListQueue<Received>, ScanArbiter>;

impl<T: BoundedQueue<Pending>, R: BoundedQueue<Received>, A: Arbiter> Model for Bus<T, R, A> {
    ghost use Rattle.can_record.specs.Journal.{Journal};
    ghost use Rattle.can_bus.specs.State.{IsKept};

    ghost Value = { Journal };

    ghost view = { λ b. record { config = b.record.config; history = b.record.history } };

    ghost invariant = { λ b. IsKept b.record b.state };
}

/// Returns the entry of a call that sets a socket's filters. The entry has its own copy of the filters.
pub(crate) fn filters_entry(
    alloc: Global,
    id: SocketId,
    filters: &FilterSet,
) -> Result<Box<Entry>, AllocError>
    ensures { IfOk result (λ entry.
        entry.value ≡ entry_of (event.SetFilters id filters.now) reply.Done) }
{
    let event = Event::SetFilters(id, filters.try_copy(alloc)?);
    let reply = Reply::Done;
    Ok(Box::new(alloc, Entry { event, reply })?)
}

impl<T: BoundedQueue<Pending>, R: BoundedQueue<Received>, A: Arbiter> Bus<T, R, A> {
    /// Returns a bus without events. It takes memory for all `limit` entries.
    pub fn new(alloc: Global, config: BusConfig) -> Result<Bus<T, R, A>, BusFault>
        ensures made { IfOk result (λ b. b ≡ record { config = config; history = [] }) }
        ensures proper { OnOk result (IsConfig config) }
        ensures bad { (result ≡ Err BusFault.BadConfig) ↔ (¬ IsConfig config) }
    {
        if !config.is_proper() {
            return Err(BusFault::BadConfig);
        }
        let Ok(state) = State::new(alloc, config) else {
            return Err(BusFault::NoMemory);
        };
        Ok(Bus {
            alloc,
            record: Record::new(alloc, config)?,
            state,
        })
    }

    /// Returns the bus's record: its configuration, and each event with its reply.
    pub fn record(&self) -> &Record
        ensures config { result.now.config ≡ self.now.config }
        ensures history { result.now.history ≡ self.now.history }
        ensures legal { IsLegal self.now.config self.now.history }
        ensures headline { Headline self.now.config self.now.history }
    {
        &self.record
    }

    /// Returns the bus's record at the end of its run, and drops the rest.
    pub fn into_record(self) -> Record
        ensures config { result.config ≡ self.config }
        ensures history { result.history ≡ self.history }
        ensures legal { IsLegal self.config self.history }
        ensures headline { Headline self.config self.history }
    {
        let Bus { record, .. } = self;
        record
    }

    /// Returns the state that the bus keeps besides its record.
    pub(crate) fn state(&self) -> &State<T, R, A>
        ensures { IsKept (record_of self.now.config self.now.history) result.now }
    {
        &self.state
    }

    /// Returns the number of entries in the record.
    pub fn len(&self) -> u64
        ensures len { result ≡ length self.now.history }
        ensures proper { IsLongConfig self.now.config }
        ensures legal { IsLegal self.now.config self.now.history }
    {
        self.record.len() as u64
    }

    /// Returns the number of attempts so far that tried a frame, which is the number of the next
    /// one.
    pub fn next_attempt(&self) -> u64
        ensures { result ≡ length (tape self.now.history) }
    {
        self.state.tried()
    }

    /// Carries out an event and returns its reply. A refusal is also a reply.
    ///
    /// The event enters the record with its reply, unless the reply is `RecordFull` or `NoMemory`;
    /// in that case nothing has changed. Only `Open` and `SetFilters` take memory. The cost is that
    /// of the event's own call.
    pub fn answer(&mut self, alloc: Global, event: &Event) -> Reply
        ensures { IsAnswered self.old event.now result self.new }
    {
        if self.record.is_full() {
            return Reply::Refused(Refusal::RecordFull);
        }
        if let Event::SetFilters(id, filters) = event {
            return self.answer_filters(alloc, *id, filters);
        }
        let reply = self.state.answer(alloc, self.record.config(), event);
        if !reply.enters() {
            return reply;
        }
        self.record.push(event, &reply);
        reply
    }

    // Sets the filters of a socket if the record has room: it takes all memory before it changes
    // anything.
    #[inline(never)]
    fn answer_filters(&mut self, alloc: Global, id: SocketId, filters: &FilterSet) -> Reply
        requires room { length self.old.history < self.old.config.limit }
        ensures { IsAnswered self.old (event.SetFilters id filters.now) result self.new }
    {
        let Ok(mut entry) = filters_entry(alloc, id, filters) else {
            return Reply::Refused(Refusal::NoMemory);
        };
        let reply = self.state.answer(alloc, self.record.config(), &entry.event);
        if !reply.enters() {
            return reply;
        }
        entry.reply = reply;
        self.record.push_boxed(entry);
        reply
    }

    /// Opens a socket on an interface, with room for `capacity` waiting items.
    ///
    /// The refusals, in this order: `RecordFull`, `NoInterface`, `BadCapacity` outside 1 to 65,536,
    /// `TooManySockets` if 64 are open, `NoMemory`.
    pub fn open(&mut self, alloc: Global, iface: Iface, capacity: u32) -> Result<SocketId, Refusal>
        ensures { Answers reply.Opened self.old (event.Open iface capacity) result self.new }
    {
        self.answer(alloc, &Event::Open(iface, capacity))
            .into_opened()
    }

    /// Closes a socket, and returns the number of its unread items and of its dropped items.
    ///
    /// Frames that the socket sent stay in their transmit queue. Refusals: `RecordFull`,
    /// `NoSocket`.
    pub fn close(&mut self, id: SocketId) -> Result<Closed, Refusal>
        ensures { Answers reply.Closed self.old (event.Close id) result self.new }
    {
        self.answer(self.alloc, &Event::Close(id)).into_closed()
    }

    /// Sets the filters of a socket to a copy of these.
    ///
    /// The refusals, in this order: `RecordFull`, `NoMemory`, `NoSocket`. All memory is taken
    /// before the socket is looked up. The cost grows with the length of the set.
    pub fn set_filters(
        &mut self,
        alloc: Global,
        id: SocketId,
        filters: &FilterSet,
    ) -> Result<(), Refusal>
        ensures { Answers done_reply self.old (event.SetFilters id filters.now) result self.new }
    {
        if self.record.is_full() {
            return Err(Refusal::RecordFull);
        }
        self.answer_filters(alloc, id, filters).into_done()
    }

    /// Sets an option of a socket. Refusals: `RecordFull`, `NoSocket`.
    pub fn set_option(&mut self, id: SocketId, option: Opt) -> Result<(), Refusal>
        ensures { Answers done_reply self.old (event.SetOption id option) result self.new }
    {
        self.answer(self.alloc, &Event::SetOption(id, option))
            .into_done()
    }

    /// Puts a frame into the transmit queue of the socket's interface, and returns its number
    /// there.
    ///
    /// The refusals, in this order: `RecordFull`, `NoSocket`, `FdOff`, `BusOff`, `Down`,
    /// `NoBuffers`. `FdOff` means that the frame is an FD frame and the socket has not enabled FD
    /// frames. `NoBuffers` is returned exactly if the queue is full.
    pub fn send(&mut self, id: SocketId, frame: Frame) -> Result<u64, Refusal>
        ensures { Answers reply.Sent self.old (event.Send id frame) result self.new }
    {
        if self.record.is_full() {
            return Err(Refusal::RecordFull);
        }
        let outcome = self.state.send(id, frame);
        self.record.push_send(id, &frame, outcome);
        outcome
    }

    /// Takes the oldest item of a socket, or returns `None` if no item waits.
    ///
    /// Refusals: `RecordFull`, `NoSocket`.
    pub fn receive(&mut self, id: SocketId) -> Result<Option<Received>, Refusal>
        ensures { Answers reply.Received self.old (event.Receive id) result self.new }
    {
        let mut room = Received::nothing();
        let taken = self.receive_into(id, &mut room)?;
        Ok(taken.then_some(room))
    }

    /// Takes the oldest item of a socket into `room`, and returns whether there was one. If no item
    /// waits, `room` does not change.
    ///
    /// Refusals: `RecordFull`, `NoSocket`. After a refusal `room` does not change either.
    pub fn receive_into(&mut self, id: SocketId, room: &mut Received) -> Result<bool, Refusal>
        ensures answer { Answers (taken_reply room.new) self.old (event.Receive id)
            result self.new }
        ensures stays { result ≢ Ok true → room.new ≡ room.old }
    {
        if self.record.is_full() {
            return Err(Refusal::RecordFull);
        }
        let outcome = self.state.receive_into(id, room);
        self.record.push_receive(id, outcome, room);
        outcome
    }

    /// Tries the frame that wins the bus, under these faults, or returns `Idle` if no live
    /// interface has a frame to send. Then it restarts each interface that was bus off for
    /// `auto_restart` attempts, including this one.
    ///
    /// It looks at each interface and at each open socket. Refusal: `RecordFull`.
    pub fn attempt(&mut self, moment: Moment, verdict: Verdict) -> Result<Attempt, Refusal>
        ensures { Answers reply.Attempted self.old (event.Attempt moment verdict) result self.new }
    {
        if self.record.is_full() {
            return Err(Refusal::RecordFull);
        }
        let config = self.record.config();
        let attempt = self.state.attempt(config, moment, verdict);
        self.record.push_attempt(moment, verdict, &attempt);
        Ok(attempt)
    }

    /// Restarts an interface that is bus off or down, and sets both error counts to 0.
    ///
    /// The refusals, in this order: `RecordFull`, `NoInterface`, `NotBusOff`.
    pub fn restart(&mut self, iface: Iface, moment: Moment) -> Result<(), Refusal>
        ensures { Answers done_reply self.old (event.Restart iface moment) result self.new }
    {
        self.answer(self.alloc, &Event::Restart(iface, moment))
            .into_done()
    }

    /// Takes an interface down, as `ip link set down` does. Until a restart it sends, accepts,
    /// acknowledges and counts nothing. The frames in its transmit queue are lost, and its sockets
    /// stay open. A call may also take down an interface that is already down or bus off.
    ///
    /// The refusals, in this order: `RecordFull`, `NoInterface`.
    pub fn down(&mut self, iface: Iface, moment: Moment) -> Result<(), Refusal>
        ensures { Answers done_reply self.old (event.Down iface moment) result self.new }
    {
        self.answer(self.alloc, &Event::Down(iface, moment))
            .into_done()
    }

    /// Returns the numbers of queued, dropped and taken items of an open socket. This is not an
    /// event.
    pub fn socket_stats(&self, id: SocketId) -> Option<SocketStats>
        ensures { result ≡ socket_stats_of self.now.config self.now.history id.0 }
    {
        self.state.socket_stats(id)
    }

    /// Returns the frame counts and the error counters of an interface. This is not an event.
    pub fn iface_stats(&self, iface: Iface) -> Option<IfaceStats>
        ensures { result ≡ iface_stats_of self.now.config self.now.history iface }
    {
        self.state.iface_stats(iface)
    }

    /// Returns the interface whose frame the next attempt tries, or `None` if no live interface has
    /// a frame to send. This is not an event.
    pub fn next_winner(&self) -> Option<Iface>
        ensures { result ≡ winner self.now.config self.now.history }
    {
        self.state.winner()
    }

    /// Returns the interface and the frame that the next attempt tries, or `None` if no live
    /// interface has a frame to send. This is not an event.
    pub fn next_head(&self) -> Option<(Iface, Frame)>
        ensures { result ≡ next_head self.now.config self.now.history }
    {
        self.state.next_head()
    }

    /// Returns whether an automatic restart is pending for any interface. This is not an event.
    pub fn is_counting(&self) -> bool
        ensures { result ≡ is_counting self.now.config self.now.history }
    {
        self.state.is_counting()
    }

    /// Returns the error counters of all 16 places, by interface; they are 0 if there is no
    /// interface. This is not an event.
    pub fn counters(&self) -> [Counters; 16]
        ensures { result ≡ all_counts self.now.config self.now.history }
    {
        self.state.counters()
    }
}
