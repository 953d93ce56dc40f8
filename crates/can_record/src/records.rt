ghost use Rattle.std.specs.Prelude.{◌≡◌, ◌<◌, ◌≤◌, ◌==◌, false, [], length, slice_get, All, IfOk, IsSome, IfSome, IsTrue, ◌↔◌};
ghost use Rattle.std.specs.Option.{option_map};
ghost use Rattle.can_event.specs.Events.{IsConfig};
ghost use Rattle.can_event.specs.Spelled.{IsSpelled, IsRecord};
ghost use Rattle.can_event.specs.Replies.{entry_of, receive_reply, told};
ghost use Rattle.can_event.specs.declared.event.Event.TheVariants as asked;
ghost use Rattle.can_event.specs.declared.reply.Reply.TheVariants as answer;
ghost use Rattle.can_record.specs.Outcomes.{attempt_entry};
ghost use Rattle.can_record.specs.PackedEntry.{receive_entry, send_entry};
ghost use Rattle.can_record.specs.StoredEntry.{entry_stored, IsStored};
ghost use Rattle.can_record.specs.Boxed.{needs_box};

use crate::entries::Entries;
use crate::entry_ref::EntryRef;
use crate::entry_store::EntryStore;
use crate::stored_entry::StoredEntry;
use can_event::{Attempt, BusConfig, Entry, Event, Received, Refusal, Reply, SocketId, is_spelled};
use can_fault::Verdict;
use can_frame::{Frame, Moment};
use std::alloc::{AllocError, Global};
use std::marker::Model;

/// The configuration of a bus, and each event on the bus with its reply.
///
/// The configuration is always within the limits of a bus. Each entry has a line in the text of a record, because its reply fits
/// its event. The record of a bus takes 32 bytes for each entry, 76 more for an FD frame, and additional memory for the filters of
/// `set_filters`. Contracts see the entries newest first.
#[derive(Drop)]
pub struct Record {
    config: BusConfig,
    held: EntryStore,
}

impl Model for Record {
    ghost use Rattle.std.specs.Prelude.{reverse};
    ghost use Rattle.can_record.specs.EntryStore.{entries_in, room_in};
    ghost use Rattle.can_record.specs.Journal.{Kept};
    ghost use Rattle.can_event.specs.Spelled.{IsRecord};

    ghost Value = { Kept };

    ghost view = { λ r. record {
      config = r.config;
      history = reverse (entries_in r.held);
      room = room_in r.held;
    } };

    ghost invariant = { λ r. IsRecord r.config (entries_in r.held) };
}

impl Record {
    ghost use Rattle.std.specs.Prelude.{reverse};
    ghost use Rattle.can_record.specs.Journal.{IsLonger};

    /// Returns an empty record, with memory for all entries that the limit of the configuration allows.
    pub fn new(alloc: Global, config: BusConfig) -> Result<Record, AllocError>
        requires { IsConfig config }
        ensures config { IfOk result (λ r. r.config ≡ config) }
        ensures empty { IfOk result (λ r. r.history ≡ []) }
        ensures room { IfOk result (λ r. config.limit ≤ r.room) }
    {
        let held = EntryStore::packed(alloc, config.limit)?;
        Ok(Record { config, held })
    }

    /// Makes a record from these entries, the oldest first. It returns `None` exactly if the configuration is outside the limits of
    /// a bus, or some entry has no line in the text of a record (`is_spelled`).
    ///
    /// The number of entries may exceed the limit, and their replies may differ from what a bus would return. It looks at each
    /// entry once, and takes no memory.
    pub fn from_entries(config: BusConfig, entries: Vec<Entry>) -> Option<Record>
        ensures config { IfSome result (λ r. r.config ≡ config) }
        ensures history { IfSome result (λ r. r.history ≡ reverse entries.items) }
        ensures fits { IsSome result ↔ IsRecord config entries.items }
    {
        if !config.is_proper() {
            return None;
        }
        if !are_spelled(config, &entries) {
            return None;
        }
        Some(Record::from_spelled(config, entries))
    }

    /// Makes a record as `from_entries` does, but checks nothing: the caller knows that these parts form a record.
    pub fn from_spelled(config: BusConfig, entries: Vec<Entry>) -> Record
        requires { IsRecord config entries.items }
        ensures config { result.config ≡ config }
        ensures history { result.history ≡ reverse entries.items }
    {
        Record {
            config,
            held: EntryStore::Given(entries),
        }
    }

    /// Returns the configuration of the bus.
    pub fn config(&self) -> BusConfig
        ensures config { result ≡ self.now.config }
        ensures proper { IsConfig result }
    {
        self.config
    }

    /// Returns the entries, the oldest first. It takes no memory.
    pub fn entries(&self) -> Entries<'_>
        ensures entries { result ≡ reverse self.now.history }
        ensures spelled { All (IsSpelled self.now.config) result }
    {
        Entries::of(&self.held)
    }

    /// Returns the entry at a place, or `None` if the place is past the end. Place 0 is the oldest entry. It takes no memory.
    pub fn entry(&self, place: usize) -> Option<EntryRef<'_>>
        ensures entry { result ≡ slice_get (reverse self.now.history) place }
        ensures spelled { IfSome result (IsSpelled self.now.config) }
    {
        self.held.get(place)
    }

    /// Returns the entry at a place in its stored form, or `None` if the place is past the end. This is faster for callers that
    /// read many entries. It takes no memory.
    pub fn stored(&self, place: usize) -> Option<StoredEntry<'_>>
        ensures entry { option_map entry_stored result
            ≡ slice_get (reverse self.now.history) place }
        ensures stored { IfSome result IsStored }
        ensures spelled { IfSome result (λ s. IsSpelled self.now.config (entry_stored s)) }
    {
        self.held.stored(place)
    }

    /// Returns a copy of all entries, the oldest first, in 208 bytes each.
    pub fn to_entries(&self, alloc: Global) -> Result<Vec<Entry>, AllocError>
        ensures entries { IfOk result (λ es. es.items ≡ reverse self.now.history) }
        ensures spelled { IfOk result (λ es. All (IsSpelled self.now.config) es.items) }
    {
        self.held.to_entries(alloc)
    }

    /// Returns the number of entries.
    pub fn len(&self) -> usize
        ensures { result ≡ length self.now.history }
    {
        self.held.len()
    }

    /// Returns whether the record has no entries.
    pub fn is_empty(&self) -> bool
        ensures { result ≡ (length self.now.history == 0) }
    {
        self.held.len() == 0
    }

    /// Returns whether the number of entries has reached the limit.
    pub fn is_full(&self) -> bool
        ensures { IsTrue result ↔ (self.now.config.limit ≤ length self.now.history) }
    {
        self.held.len() >= self.config.limit as usize
    }

    /// Adds an entry that needs no box. It takes no memory.
    #[inline(always)]
    pub fn push(&mut self, event: &Event, reply: &Reply)
        requires room { length self.old.history < self.old.room }
        requires spelled { IsSpelled self.old.config (entry_of event.now reply.now) }
        requires fits { needs_box event.now reply.now ≡ false }
        ensures { IsLonger self.old (entry_of event.now reply.now) self.new }
    {
        // A list from `from_entries` or `from_spelled` has no room for new entries.
        let EntryStore::Packed(entries) = &mut self.held else {
            unreachable!()
        };
        entries.push(event, reply);
    }

    /// Adds a receive call that needs no box. The call took an item into `room`, took none, or was refused. It takes no memory.
    #[inline(always)]
    pub fn push_receive(&mut self, id: SocketId, outcome: Result<bool, Refusal>, room: &Received)
        requires room { length self.old.history < self.old.room }
        requires spelled { IsSpelled self.old.config (receive_entry id room.now outcome) }
        requires fits { needs_box (asked.Receive id) (receive_reply room.now outcome) ≡ false }
        ensures { IsLonger self.old (receive_entry id room.now outcome) self.new }
    {
        // A list from `from_entries` or `from_spelled` has no room for new entries.
        let EntryStore::Packed(entries) = &mut self.held else {
            unreachable!()
        };
        entries.push_receive(id, outcome, room);
    }

    /// Adds a send call that needs no box. The call gave a number to the frame, or was refused. It takes no memory.
    #[inline(always)]
    pub fn push_send(&mut self, id: SocketId, frame: &Frame, outcome: Result<u64, Refusal>)
        requires room { length self.old.history < self.old.room }
        requires spelled { IsSpelled self.old.config (send_entry id frame.now outcome) }
        requires fits { needs_box (asked.Send id frame.now) (told answer.Sent outcome) ≡ false }
        ensures { IsLonger self.old (send_entry id frame.now outcome) self.new }
    {
        // A list from `from_entries` or `from_spelled` has no room for new entries.
        let EntryStore::Packed(entries) = &mut self.held else {
            unreachable!()
        };
        entries.push_send(id, frame, outcome);
    }

    /// Adds an attempt that needs no box. It takes no memory.
    #[inline(always)]
    pub fn push_attempt(&mut self, moment: Moment, verdict: Verdict, attempt: &Attempt)
        requires room { length self.old.history < self.old.room }
        requires spelled { IsSpelled self.old.config (attempt_entry moment verdict attempt.now) }
        requires fits { needs_box (asked.Attempt moment verdict)
            (answer.Attempted attempt.now) ≡ false }
        ensures { IsLonger self.old (attempt_entry moment verdict attempt.now) self.new }
    {
        // A list from `from_entries` or `from_spelled` has no room for new entries.
        let EntryStore::Packed(entries) = &mut self.held else {
            unreachable!()
        };
        entries.push_attempt(moment, verdict, attempt);
    }

    /// Adds an entry that is in a box, and keeps the box. It takes no other memory.
    pub fn push_boxed(&mut self, entry: Box<Entry>)
        requires room { length self.old.history < self.old.room }
        requires spelled { IsSpelled self.old.config entry.value }
        ensures { IsLonger self.old entry.value self.new }
    {
        // A list from `from_entries` or `from_spelled` has no room for new entries.
        let EntryStore::Packed(entries) = &mut self.held else {
            unreachable!()
        };
        entries.push_boxed(entry);
    }
}

/// Returns whether each of these entries has a line in the text of a record with this configuration.
fn are_spelled(config: BusConfig, entries: &[Entry]) -> bool
    ensures { IsTrue result ↔ All (IsSpelled config) entries.now }
{
    entries.iter().all(|entry| is_spelled(config, entry))
}
