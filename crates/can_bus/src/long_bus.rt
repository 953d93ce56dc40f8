ghost use Rattle.std.specs.Prelude.{◌≡◌, ◌≢◌, ◌<◌, ◌≤◌, [], ◌++◌, length, true, Ok, Err, IfOk, OnOk, IsTrue, ◌↔◌};
ghost use Rattle.can_bus.specs.Answer.{Answers};
ghost use Rattle.can_bus.specs.Headline.{Headline};
ghost use Rattle.can_bus.specs.Lean.{record_of};
ghost use Rattle.can_bus.specs.Legal.{IsLegal};
ghost use Rattle.can_bus.specs.Long.{HandsOut, HasPlace, KeepsTail, handed_entries, held_back, journal_of, places_left};
ghost use Rattle.can_bus.specs.Run.{IsAnswered};
ghost use Rattle.can_bus.specs.State.{IsKept};
ghost use Rattle.can_event.specs.Events.{IsLongConfig};
ghost use Rattle.can_event.specs.Replies.{taken_reply};
ghost use Rattle.can_event.specs.declared.event.Event.TheVariants as event;
ghost use Rattle.can_event.specs.declared.reply.Reply.TheVariants as reply;

use crate::bus::{BusFault, filters_entry};
use crate::history::History;
use crate::state::State;
use can_arbiter::{Arbiter, IndexArbiter};
use can_event::{BusConfig, Event, Pending, Received, Refusal, Reply, SocketId};
use can_filter::FilterSet;
use can_frame::Frame;
use can_queue::{BoundedQueue, RingQueue};
use can_record::PackedRecord;
use std::alloc::Global;
use std::marker::Model;
use std::mem;

/// The number of entries that the tail of a long run's bus holds.
pub const TAIL_SIZE: u32 = 262_144;

/// The bus of a long run. It answers each event as a `Bus` with the same events does.
///
/// Its memory holds only its tail: the entries that were not yet handed out. A caller that takes entries lends an empty block in
/// exchange for them, and that block becomes the tail. A call needs a free place in the tail (`places`); a full tail is never a
/// reason to refuse.
///
/// Contracts see the configuration, the whole history, the number of entries handed out, and the capacity of the tail. `new`
/// reserves the tail (32 bytes per entry and 76 for its FD frame), the transmit queues and the places of 64 sockets.
#[derive(Drop)]
pub struct LongBus<T: BoundedQueue<Pending>, R: BoundedQueue<Received>, A: Arbiter> {
    alloc: Global,
    config: BusConfig,
    state: State<T, R, A>,
    history: History,
    tail: PackedRecord,
    handed: u64,
}

/// The bus of the program for long runs, with ring buffers as queues.
pub type LongRingBus = LongBus<RingQueue<Pending>, RingQueue<Received>, IndexArbiter>;

impl<T: BoundedQueue<Pending>, R: BoundedQueue<Received>, A: Arbiter> Model for LongBus<T, R, A> {
    ghost use Rattle.can_bus.specs.Long.{IsLong, LongJournal};

    ghost Value = { LongJournal };

    ghost view = { λ b. record {
      config = b.config;
      history = b.history;
      handed = b.handed;
      room = b.tail.room;
    } };

    ghost invariant = { λ b. IsLong b.config b.history b.state b.tail.entries b.handed };
}

impl<T: BoundedQueue<Pending>, R: BoundedQueue<Received>, A: Arbiter> LongBus<T, R, A> {
    /// Returns a bus without events whose tail holds this many entries. Only tests use another
    /// number than `TAIL_SIZE`.
    pub fn new(alloc: Global, config: BusConfig, size: u32) -> Result<LongBus<T, R, A>, BusFault>
        ensures made { IfOk result (λ b. journal_of b ≡ record { config = config; history = [] }) }
        ensures tail { IfOk result (λ b. (b.handed ≡ 0) × (size ≤ b.room)) }
        ensures out { IfOk result (λ b. handed_entries b ≡ []) }
        ensures proper { OnOk result (IsLongConfig config) }
        ensures bad { (result ≡ Err BusFault.BadConfig) ↔ (¬ IsLongConfig config) }
    {
        if !config.is_long_proper() {
            return Err(BusFault::BadConfig);
        }
        let Ok(state) = State::new(alloc, config) else {
            return Err(BusFault::NoMemory);
        };
        Ok(LongBus {
            alloc,
            config,
            state,
            history: History::new(),
            tail: PackedRecord::with_capacity(alloc, size)?,
            handed: 0,
        })
    }

    /// Returns the configuration of the bus.
    pub fn config(&self) -> BusConfig
        ensures { result ≡ self.now.config }
    {
        self.config
    }

    /// Returns the number of entries, including those that were handed out.
    pub fn len(&self) -> u64
        ensures len { result ≡ length self.now.history }
        ensures proper { IsLongConfig self.now.config }
        ensures legal { IsLegal self.now.config self.now.history }
        ensures headline { Headline self.now.config self.now.history }
    {
        self.handed + self.tail.len() as u64
    }

    /// Returns the state that the bus keeps besides its entries.
    pub(crate) fn state(&self) -> &State<T, R, A>
        ensures { IsKept (record_of self.now.config self.now.history) result.now }
    {
        &self.state
    }

    /// Returns the number of entries for which the tail has room.
    pub fn places(&self) -> usize
        ensures { result ≡ places_left self.now }
    {
        self.tail.room().saturating_sub(self.tail.len())
    }

    // Returns whether the limit of entries is reached.
    fn is_full(&self) -> bool
        ensures { IsTrue result ↔ (self.now.config.limit ≤ length self.now.history) }
    {
        self.len() >= u64::from(self.config.limit)
    }

    /// Carries out an event and returns its reply, as `Bus::answer` does.
    pub fn answer(&mut self, alloc: Global, event: &Event) -> Reply
        requires { HasPlace self.old }
        ensures answered { IsAnswered (journal_of self.old) event.now result (journal_of self.new) }
        ensures tail { KeepsTail self.old self.new }
        ensures out { handed_entries self.new ≡ handed_entries self.old }
    {
        if self.is_full() {
            return Reply::Refused(Refusal::RecordFull);
        }
        if let Event::SetFilters(id, filters) = event {
            return self.answer_filters(alloc, *id, filters);
        }
        let reply = self.state.answer(alloc, self.config, event);
        if !reply.enters() {
            return reply;
        }
        self.tail.push(event, &reply);
        self.history.note(event, &reply);
        reply
    }

    // Sets the filters of a socket if there is room: it takes all memory before it changes
    // anything.
    #[inline(never)]
    fn answer_filters(&mut self, alloc: Global, id: SocketId, filters: &FilterSet) -> Reply
        requires place { HasPlace self.old }
        requires room { length self.old.history < self.old.config.limit }
        ensures answered { IsAnswered (journal_of self.old) (event.SetFilters id filters.now) result
            (journal_of self.new) }
        ensures tail { KeepsTail self.old self.new }
        ensures out { handed_entries self.new ≡ handed_entries self.old }
    {
        let Ok(mut entry) = filters_entry(alloc, id, filters) else {
            return Reply::Refused(Refusal::NoMemory);
        };
        let reply = self.state.answer(alloc, self.config, &entry.event);
        if !reply.enters() {
            return reply;
        }
        entry.reply = reply;
        self.history.note(&entry.event, &entry.reply);
        self.tail.push_boxed(entry);
        reply
    }

    /// Puts a frame into the transmit queue of the socket's interface, as `Bus::send` does.
    pub fn send(&mut self, id: SocketId, frame: Frame) -> Result<u64, Refusal>
        requires { HasPlace self.old }
        ensures answer { Answers reply.Sent (journal_of self.old) (event.Send id frame) result
            (journal_of self.new) }
        ensures tail { KeepsTail self.old self.new }
        ensures out { handed_entries self.new ≡ handed_entries self.old }
    {
        if self.is_full() {
            return Err(Refusal::RecordFull);
        }
        let outcome = self.state.send(id, frame);
        self.tail.push_send(id, &frame, outcome);
        self.history.note_send(&id, &frame, &outcome);
        outcome
    }

    /// Takes the oldest item of a socket into `room`, as `Bus::receive_into` does.
    pub fn receive_into(&mut self, id: SocketId, room: &mut Received) -> Result<bool, Refusal>
        requires { HasPlace self.old }
        ensures answer { Answers (taken_reply room.new) (journal_of self.old) (event.Receive id)
            result (journal_of self.new) }
        ensures stays { result ≢ Ok true → room.new ≡ room.old }
        ensures tail { KeepsTail self.old self.new }
        ensures out { handed_entries self.new ≡ handed_entries self.old }
    {
        if self.is_full() {
            return Err(Refusal::RecordFull);
        }
        let outcome = self.state.receive_into(id, room);
        self.tail.push_receive(id, outcome, room);
        self.history.note_receive(&id, &outcome, room);
        outcome
    }

    /// Hands out the entries that were not yet handed out, in order, in exchange for an empty
    /// block. That block becomes the tail.
    ///
    /// It only swaps two pointers, and takes no memory.
    pub fn take_entries(&mut self, block: &mut PackedRecord)
        requires { block.old.entries ≡ [] }
        ensures handed { HandsOut self.old block.old.room block.new.entries self.new }
        ensures room { block.new.room ≡ self.old.room }
        ensures out { handed_entries self.new ≡ handed_entries self.old ++ block.new.entries }
    {
        let handed = self.len();
        mem::swap(&mut self.tail, block);
        self.handed = handed;
    }

    /// Returns the remaining entries at the end of a run: those that were not handed out.
    pub fn into_left(self) -> LongEnd
        ensures { result ≡ self }
    {
        let LongBus {
            alloc: _,
            config,
            state: _,
            history,
            tail,
            handed,
        } = self;
        LongEnd {
            config,
            history,
            tail,
            handed,
        }
    }
}

/// The remainder of the bus of a long run: its last entries, which were not handed out. Contracts see it as the bus.
#[derive(Drop)]
pub struct LongEnd {
    config: BusConfig,
    history: History,
    tail: PackedRecord,
    handed: u64,
}

impl Model for LongEnd {
    ghost use Rattle.can_bus.specs.Long.{IsEnd, LongJournal};

    ghost Value = { LongJournal };

    ghost view = { λ e. record {
      config = e.config;
      history = e.history;
      handed = e.handed;
      room = e.tail.room;
    } };

    ghost invariant = { λ e. IsEnd e.config e.history e.tail.entries e.handed };
}

impl LongEnd {
    /// Returns the configuration of the bus.
    pub fn config(&self) -> BusConfig
        ensures config { result ≡ self.now.config }
        ensures proper { IsLongConfig result }
    {
        self.config
    }

    /// Returns the number of entries of the bus.
    pub fn len(&self) -> u64
        ensures { result ≡ length self.now.history }
    {
        self.handed + self.tail.len() as u64
    }

    /// Returns the number of entries that were handed out before the end.
    pub fn handed(&self) -> u64
        ensures { result ≡ self.now.handed }
    {
        self.handed
    }

    /// Returns the entries that were not handed out, in order. They are the last entries of a legal
    /// history.
    pub fn entries(&self) -> &PackedRecord
        ensures entries { result.now.entries ≡ held_back self.now }
        ensures legal { IsLegal self.now.config self.now.history }
    {
        &self.tail
    }
}
