ghost use Rattle.std.specs.Prelude.{◌≡◌, ◌<◌, ◌≤◌, ◌+◌, false, [], length, slice_get, IfOk, IfSome, IsOk, OnOk};
ghost use Rattle.std.specs.Option.{option_map};
ghost use Rattle.can_event.specs.Replies.{entry_of, receive_reply, told};
ghost use Rattle.can_event.specs.declared.attempt.Attempt.TheVariants.{Idle};
ghost use Rattle.can_event.specs.declared.attempt.Attempt.TheVariants as attempt;
ghost use Rattle.can_event.specs.declared.event.Event.TheVariants as asked;
ghost use Rattle.can_event.specs.declared.reply.Reply.TheVariants as answer;
ghost use Rattle.can_record.specs.PackedEntry.{entry_in, frames_needed, receive_entry, send_entry, tried_entry};
ghost use Rattle.can_record.specs.Outcomes.{attempt_entry};
ghost use Rattle.can_record.specs.Records.{Adds};
ghost use Rattle.can_record.specs.StoredEntry.{entry_stored, IsStored};
ghost use Rattle.can_record.specs.Boxed.{needs_box};

use crate::entry_ref::EntryRef;
use crate::packed_entry::PackedEntry;
use crate::packing::{pack, pack_receive, pack_send, pack_tried};
use crate::stored_entry::StoredEntry;
use can_event::{Attempt, Entry, Event, Received, Refusal, Reply, SocketId, Tried};
use can_fault::Verdict;
use can_frame::{Frame, IfaceSet, Moment};
use std::alloc::{AllocError, Global};
use std::marker::Model;

/// A list of entries of 32 bytes each, the oldest first. Memory is reserved before an entry is added.
///
/// FD frames are in a second list. Memory for one FD frame is reserved with each additional entry. If there are no FD frames, that
/// memory is never touched, and costs only address space.
#[derive(Drop)]
pub struct PackedRecord {
    entries: Vec<PackedEntry>,
    frames: Vec<Frame>,
}

impl Model for PackedRecord {
    ghost use Rattle.can_record.specs.Records.{PackedEntries};

    ghost Value = { PackedEntries };

    ghost use Rattle.can_record.specs.Packing.{packed_entries, IsPacked};

    ghost view = { packed_entries };

    ghost invariant = { IsPacked };
}

impl PackedRecord {
    /// Returns a list without entries and without memory.
    pub fn new(alloc: Global) -> PackedRecord
        ensures { result.entries ≡ [] }
    {
        PackedRecord {
            entries: Vec::new(alloc),
            frames: Vec::new(alloc),
        }
    }

    /// Returns a list without entries, with memory for `limit` entries.
    pub fn with_capacity(alloc: Global, limit: u32) -> Result<PackedRecord, AllocError>
        ensures empty { IfOk result (λ r. r.entries ≡ []) }
        ensures room { IfOk result (λ r. limit ≤ r.room) }
    {
        let entries = Vec::with_capacity(alloc, limit as usize)?;
        let frames = Vec::with_capacity(alloc, limit as usize)?;
        Ok(PackedRecord { entries, frames })
    }

    /// Reserves memory for `more` additional entries and the same number of FD frames, unless the list already has it.
    pub fn reserve(&mut self, more: usize) -> Result<(), AllocError>
        ensures entries { self.new.entries ≡ self.old.entries }
        ensures room { OnOk result (length self.old.entries + more ≤ self.new.room) }
        ensures enough { length self.old.entries + more ≤ self.old.room → IsOk result }
    {
        self.entries.reserve(more)?;
        self.frames.reserve(more)
    }

    /// Returns the number of entries.
    pub fn len(&self) -> usize
        ensures { result ≡ length self.now.entries }
    {
        self.entries.len()
    }

    /// Returns the number of entries for which there is memory, including the entries that are already in the list.
    pub fn room(&self) -> usize
        ensures { result ≡ self.now.room }
    {
        let entries = self.entries.capacity() - self.entries.len();
        let frames = self.frames.capacity() - self.frames.len();
        self.entries.len() + entries.min(frames)
    }

    /// Removes all entries. The list keeps its memory.
    pub fn clear(&mut self)
        ensures { self.new.entries ≡ [] }
    {
        self.entries.clear();
        self.frames.clear();
    }

    /// Adds an event with its reply, which need no box. It takes no memory.
    #[inline(always)]
    pub fn push(&mut self, event: &Event, reply: &Reply)
        requires room { length self.old.entries < self.old.room }
        requires fits { needs_box event.now reply.now ≡ false }
        ensures more { Adds self.old.entries (entry_of event.now reply.now) self.new.entries }
        ensures room { self.old.room ≤ self.new.room }
    {
        let kept = pack(&mut self.frames, event, reply);
        let _ = self.entries.push(kept);
    }

    /// Adds a receive call that needs no box. The call took an item into `room`, took none, or was refused. It takes no memory.
    #[inline(always)]
    pub fn push_receive(&mut self, id: SocketId, outcome: Result<bool, Refusal>, room: &Received)
        requires room { length self.old.entries < self.old.room }
        requires fits { needs_box (asked.Receive id) (receive_reply room.now outcome) ≡ false }
        ensures more { Adds self.old.entries (receive_entry id room.now outcome) self.new.entries }
        ensures room { self.old.room ≤ self.new.room }
    {
        let kept = pack_receive(&mut self.frames, id, outcome, room);
        let _ = self.entries.push(kept);
    }

    /// Adds a send call that needs no box. The call gave a number to the frame, or was refused. It takes no memory.
    #[inline(always)]
    pub fn push_send(&mut self, id: SocketId, frame: &Frame, outcome: Result<u64, Refusal>)
        requires room { length self.old.entries < self.old.room }
        requires fits { needs_box (asked.Send id frame.now) (told answer.Sent outcome) ≡ false }
        ensures more { Adds self.old.entries (send_entry id frame.now outcome) self.new.entries }
        ensures room { self.old.room ≤ self.new.room }
    {
        let kept = pack_send(&mut self.frames, id, frame, outcome);
        let _ = self.entries.push(kept);
    }

    /// Adds an attempt that needs no box. It takes no memory.
    #[inline(always)]
    pub fn push_attempt(&mut self, moment: Moment, verdict: Verdict, attempt: &Attempt)
        requires room { length self.old.entries < self.old.room }
        requires fits { needs_box (asked.Attempt moment verdict)
            (answer.Attempted attempt.now) ≡ false }
        ensures more { Adds self.old.entries (attempt_entry moment verdict attempt.now)
            self.new.entries }
        ensures room { self.old.room ≤ self.new.room }
    {
        match attempt {
            Attempt::Tried(tried) => self.push_tried(moment, verdict, tried),
            Attempt::Idle { restarted } => self.push_idle(moment, verdict, *restarted),
        }
    }

    /// Adds an attempt that tried no frame and restarted these interfaces.
    #[inline(never)]
    fn push_idle(&mut self, moment: Moment, verdict: Verdict, restarted: IfaceSet)
        requires { length self.old.entries < self.old.room }
        ensures more { Adds self.old.entries (attempt_entry moment verdict (Idle restarted))
            self.new.entries }
        ensures room { self.old.room ≤ self.new.room }
    {
        self.push(
            &Event::Attempt(moment, verdict),
            &Reply::Attempted(Attempt::Idle { restarted }),
        );
    }

    /// Adds an attempt that tried a frame.
    #[inline(always)]
    fn push_tried(&mut self, moment: Moment, verdict: Verdict, tried: &Tried)
        requires room { length self.old.entries < self.old.room }
        requires fits { needs_box (asked.Attempt moment verdict)
            (answer.Attempted (attempt.Tried tried.now)) ≡ false }
        ensures more { Adds self.old.entries (tried_entry moment verdict tried.now)
            self.new.entries }
        ensures room { self.old.room ≤ self.new.room }
    {
        let kept = pack_tried(&mut self.frames, moment, verdict, tried);
        let _ = self.entries.push(kept);
    }

    /// Adds an entry that is in a box, and keeps the box. It takes no other memory.
    pub fn push_boxed(&mut self, entry: Box<Entry>)
        requires room { length self.old.entries < self.old.room }
        ensures more { Adds self.old.entries entry.value self.new.entries }
        ensures room { self.old.room ≤ self.new.room }
    {
        let _ = self.entries.push(PackedEntry::Boxed(entry));
    }

    /// Returns the entry at a place in its stored form, or `None` if the place is past the end. It takes no memory.
    pub fn stored(&self, place: usize) -> Option<StoredEntry<'_>>
        ensures entry { option_map entry_stored result ≡ slice_get self.now.entries place }
        ensures stored { IfSome result IsStored }
    {
        match self.entries.get(place) {
            Some(kept) => Some(stored(&self.frames, kept)),
            None => None,
        }
    }

    /// Returns the entry at a place, or `None` if the place is past the end. A boxed entry is borrowed; any other is unpacked. It
    /// takes no memory.
    pub fn look(&self, place: usize) -> Option<EntryRef<'_>>
        ensures { result ≡ slice_get self.now.entries place }
    {
        match self.stored(place) {
            Some(stored) => Some(EntryRef::of(&stored)),
            None => None,
        }
    }
}

/// Returns the stored form of a packed entry, whose FD frame is in this list.
fn stored<'a>(frames: &'a [Frame], kept: &'a PackedEntry) -> StoredEntry<'a>
    requires { frames_needed kept.now ≤ length frames.now }
    ensures entry { entry_stored result ≡ entry_in frames.now kept.now }
    ensures stored { IsStored result }
{
    match kept {
        PackedEntry::Boxed(entry) => StoredEntry::Whole(entry),
        kept => StoredEntry::Packed(frames, kept),
    }
}
