ghost use Rattle.std.specs.Prelude.{◌≡◌, [], Err, List, IfOk, OnOk, ◌↔◌};
ghost use Rattle.can_bus.specs.Lean.{IsAfter};
ghost use Rattle.can_bus.specs.Run.{IsAnswer, history_after};
ghost use Rattle.can_event.specs.Events.{IsLongConfig};
ghost use Rattle.can_event.specs.Replies.{Enters, entry_of};
ghost use Rattle.can_event.specs.Spelled.{IsSpelled};
ghost use Rattle.can_event.specs.declared.entry.Entry.{Entry as AnEntry};

use crate::bus::BusFault;
use crate::state::State;
use can_arbiter::{Arbiter, IndexArbiter};
use can_event::{BusConfig, Event, Pending, Received, Refusal, Reply};
use can_queue::{BoundedQueue, RingQueue};
use std::alloc::Global;
use std::marker::Model;

/// A bus without a record. It answers each event as a `Bus` with the same events does. It serves
/// callers that have the entries elsewhere, such as the audit of a record's text.
///
/// Contracts name the entries so far, the newest first, as `past`. `new` takes memory for the
/// transmit queues and the places of 64 sockets, but none for a record.
#[derive(Drop)]
pub struct LeanBus<T: BoundedQueue<Pending>, R: BoundedQueue<Received>, A: Arbiter> {
    config: BusConfig,
    count: u32,
    state: State<T, R, A>,
}

/// The lean bus of the program, with ring buffers as queues.
pub type LeanRingBus = LeanBus<RingQueue<Pending>, RingQueue<Received>, IndexArbiter>;

impl<T: BoundedQueue<Pending>, R: BoundedQueue<Received>, A: Arbiter> Model for LeanBus<T, R, A> {
    ghost use Rattle.can_bus.specs.Lean.{IsLegalLean, Lean};

    ghost Value = { Lean };

    ghost view = { λ b. record { config = b.config; count = b.count; parts = b.state } };

    ghost invariant = { λ b.
        IsLegalLean (record { config = b.config; count = b.count; parts = b.state }) };
}

impl<T: BoundedQueue<Pending>, R: BoundedQueue<Received>, A: Arbiter> LeanBus<T, R, A> {
    /// Returns a bus without events.
    pub fn new(alloc: Global, config: BusConfig) -> Result<LeanBus<T, R, A>, BusFault>
        ensures made { IfOk result (λ b. IsAfter b []) }
        ensures config { IfOk result (λ b. b.config ≡ config) }
        ensures proper { OnOk result (IsLongConfig config) }
        ensures bad { (result ≡ Err BusFault.BadConfig) ↔ (¬ IsLongConfig config) }
    {
        if !config.is_long_proper() {
            return Err(BusFault::BadConfig);
        }
        let Ok(state) = State::new(alloc, config) else {
            return Err(BusFault::NoMemory);
        };
        Ok(LeanBus {
            config,
            count: 0,
            state,
        })
    }

    /// Returns the state after its entries.
    pub fn state(&self) -> &State<T, R, A>
        ensures { result.now ≡ self.now.parts }
    {
        &self.state
    }

    /// Carries out one event and returns its reply. It returns `RecordFull` if the limit of entries
    /// is reached, and `NoMemory` if `open` or `set_filters` gets no memory. Neither of these
    /// replies changes anything.
    ///
    /// The cost is that of the call on a bus.
    pub fn answer(&mut self, alloc: Global, event: &Event) -> Reply
        ensures answer { (past : List AnEntry) → IsAfter self.old past →
            IsAnswer self.old.config past event.now result }
        ensures after { (past : List AnEntry) → IsAfter self.old past →
            IsAfter self.new (history_after event.now result past) }
        ensures spelled { Enters result → IsSpelled self.old.config (entry_of event.now result) }
        ensures config { self.new.config ≡ self.old.config }
    {
        if self.count >= self.config.limit {
            return Reply::Refused(Refusal::RecordFull);
        }
        let reply = self.state.answer(alloc, self.config, event);
        if reply.enters() {
            self.count += 1;
        }
        reply
    }
}
