ghost use Rattle.std.specs.Prelude.{◌≡◌, ◌<◌, ◌≤◌, ◌+◌, ◌==◌, true, [], length, slice_get, IsOk, OnOk};
ghost use Rattle.can_event.specs.Replies.{entry_of};
ghost use Rattle.can_record.specs.PackedEntry.{receive_entry, send_entry};
ghost use Rattle.can_record.specs.Records.{Adds};
ghost use Rattle.can_record.specs.Boxed.{needs_box};

use crate::boxed::{needs_box, receive_needs_box, send_needs_box};
use crate::entry_ref::EntryRef;
use crate::outcomes::{receive_reply, sent_reply};
use crate::packed_record::PackedRecord;
use can_event::{Entry, Event, Received, Refusal, Reply, SocketId};
use can_frame::Frame;
use std::alloc::{AllocError, Global};
use std::marker::Model;

/// A growing list of entries of 32 bytes each, the oldest first.
///
/// The caller reserves memory before it adds an entry: places in the list, and a spare box that the next boxed entry uses up.
#[derive(Drop)]
pub struct PackedList {
    entries: PackedRecord,
    spare: Option<Box<Entry>>,
}

impl Model for PackedList {
    ghost use Rattle.std.specs.Prelude.{is_some};
    ghost use Rattle.can_record.specs.Records.{ListedEntries};

    ghost Value = { ListedEntries };

    ghost view = { λ l.
        record { entries = l.entries.entries; room = l.entries.room; spare = is_some l.spare } };
}

impl PackedList {
    /// Returns a list without entries. It takes no memory.
    pub fn new(alloc: Global) -> PackedList
        ensures { result.entries ≡ [] }
    {
        PackedList {
            entries: PackedRecord::new(alloc),
            spare: None,
        }
    }

    /// Reserves memory for `more` additional entries, unless the list already has it.
    pub fn reserve(&mut self, more: usize) -> Result<(), AllocError>
        ensures entries { self.new.entries ≡ self.old.entries }
        ensures room { OnOk result (length self.old.entries + more ≤ self.new.room) }
        ensures spare { self.new.spare ≡ self.old.spare }
        ensures enough { length self.old.entries + more ≤ self.old.room → IsOk result }
    {
        self.entries.reserve(more)
    }

    /// Reserves the spare box for an entry that needs one, unless the list already has it.
    pub fn reserve_spare(&mut self, alloc: Global) -> Result<(), AllocError>
        ensures entries { self.new.entries ≡ self.old.entries }
        ensures room { self.new.room ≡ self.old.room }
        ensures spare { OnOk result (self.new.spare ≡ true) }
        ensures enough { self.old.spare ≡ true → IsOk result }
    {
        if self.spare.is_none() {
            self.spare = Some(Box::new(alloc, blank())?);
        }
        Ok(())
    }

    /// Returns the number of entries.
    pub fn len(&self) -> usize
        ensures { result ≡ length self.now.entries }
    {
        self.entries.len()
    }

    /// Returns whether the list has no entries.
    pub fn is_empty(&self) -> bool
        ensures { result ≡ (length self.now.entries == 0) }
    {
        self.entries.len() == 0
    }

    /// Adds an event with its reply. It takes no memory.
    pub fn push(&mut self, event: Event, reply: Reply)
        requires room { length self.old.entries < self.old.room }
        requires spare { needs_box event reply ≡ true → self.old.spare ≡ true }
        ensures { Adds self.old.entries (entry_of event reply) self.new.entries }
    {
        if needs_box(&event, &reply) {
            self.push_spare(event, reply);
        } else {
            self.entries.push(&event, &reply);
        }
    }

    /// Adds a receive call, which took an item into `room`, took none, or was refused. It takes no memory.
    pub fn push_receive(&mut self, id: SocketId, outcome: Result<bool, Refusal>, room: &Received)
        requires room { length self.old.entries < self.old.room }
        requires spare { self.old.spare ≡ true }
        ensures { Adds self.old.entries (receive_entry id room.now outcome) self.new.entries }
    {
        if receive_needs_box(outcome, room) {
            self.push_boxed_receive(id, outcome, room);
        } else {
            self.entries.push_receive(id, outcome, room);
        }
    }

    // This is a separate function because boxed receives are rare: it makes the event and the reply only for them.
    #[inline(never)]
    fn push_boxed_receive(&mut self, id: SocketId, outcome: Result<bool, Refusal>, room: &Received)
        requires room { length self.old.entries < self.old.room }
        requires spare { self.old.spare ≡ true }
        ensures { Adds self.old.entries (receive_entry id room.now outcome) self.new.entries }
    {
        self.push_spare(Event::Receive(id), receive_reply(outcome, room));
    }

    /// Adds a send, which gave the frame this number or was refused. No memory is taken.
    pub fn push_send(&mut self, id: SocketId, frame: &Frame, outcome: Result<u64, Refusal>)
        requires room { length self.old.entries < self.old.room }
        requires spare { self.old.spare ≡ true }
        ensures { Adds self.old.entries (send_entry id frame.now outcome) self.new.entries }
    {
        if send_needs_box(outcome) {
            self.push_boxed_send(id, frame, outcome);
        } else {
            self.entries.push_send(id, frame, outcome);
        }
    }

    // Its event and its reply are made only in the rare case.
    #[inline(never)]
    fn push_boxed_send(&mut self, id: SocketId, frame: &Frame, outcome: Result<u64, Refusal>)
        requires room { length self.old.entries < self.old.room }
        requires spare { self.old.spare ≡ true }
        ensures { Adds self.old.entries (send_entry id frame.now outcome) self.new.entries }
    {
        self.push_spare(Event::Send(id, *frame), sent_reply(&outcome));
    }

    /// Adds an event with its reply in the spare box.
    fn push_spare(&mut self, event: Event, reply: Reply)
        requires room { length self.old.entries < self.old.room }
        requires spare { self.old.spare ≡ true }
        ensures { Adds self.old.entries (entry_of event reply) self.new.entries }
    {
        let mut entry = self.spare.take().unwrap();
        *entry = Entry { event, reply };
        self.entries.push_boxed(entry);
    }

    /// Returns the entry at a place, or `None` if the place is past the end. It takes no memory.
    pub fn look(&self, place: usize) -> Option<EntryRef<'_>>
        ensures { result ≡ slice_get self.now.entries place }
    {
        self.entries.look(place)
    }
}

/// Returns a placeholder that fills a spare box until an entry is put there.
fn blank() -> Entry {
    Entry {
        event: Event::Close(SocketId(0)),
        reply: Reply::Done,
    }
}
