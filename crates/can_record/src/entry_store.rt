ghost use Rattle.std.specs.Prelude.{◌≡◌, ◌<◌, ◌≤◌, [], length, slice_get, vec_capacity, IfOk, IfSome};
ghost use Rattle.std.specs.Option.{option_map};
ghost use Rattle.can_record.specs.EntryStore.{entries_in, room_in};
ghost use Rattle.can_record.specs.Records.{Adds};
ghost use Rattle.can_record.specs.StoredEntry.{entry_stored, IsStored};

use crate::entry_ref::EntryRef;
use crate::packed_record::PackedRecord;
use crate::stored_entry::StoredEntry;
use can_event::{Entry, Received};
use can_frame::Item;
use std::alloc::{AllocError, Global};

/// The storage of a record's entries, the oldest first.
#[derive(Drop)]
pub enum EntryStore {
    /// The entries that a bus added, in 32 bytes each.
    Packed(PackedRecord),
    /// The entries that were given to `Record::from_entries` or `Record::from_spelled`.
    Given(Vec<Entry>),
}

impl EntryStore {
    /// Returns a store without entries, with memory for `limit` entries.
    pub fn packed(alloc: Global, limit: u32) -> Result<EntryStore, AllocError>
        ensures empty { IfOk result (λ h. entries_in h ≡ []) }
        ensures room { IfOk result (λ h. limit ≤ room_in h) }
    {
        Ok(EntryStore::Packed(PackedRecord::with_capacity(alloc, limit)?))
    }

    /// Returns the number of entries.
    #[inline(always)]
    pub fn len(&self) -> usize
        ensures { result ≡ length (entries_in self.now) }
    {
        match self {
            EntryStore::Packed(entries) => entries.len(),
            EntryStore::Given(entries) => entries.len(),
        }
    }

    /// Returns the entry at a place in its stored form, or `None` if the place is past the end.
    pub fn stored(&self, place: usize) -> Option<StoredEntry<'_>>
        ensures entry { option_map entry_stored result ≡ slice_get (entries_in self.now) place }
        ensures stored { IfSome result IsStored }
    {
        match self {
            EntryStore::Packed(entries) => entries.stored(place),
            EntryStore::Given(entries) => match entries.get(place) {
                Some(entry) => Some(StoredEntry::Whole(entry)),
                None => None,
            },
        }
    }

    /// Returns the entry at a place, or `None` if the place is past the end.
    pub fn get(&self, place: usize) -> Option<EntryRef<'_>>
        ensures { result ≡ slice_get (entries_in self.now) place }
    {
        match self.stored(place) {
            Some(stored) => Some(EntryRef::of(&stored)),
            None => None,
        }
    }

    /// Returns a copy of all entries.
    pub fn to_entries(&self, alloc: Global) -> Result<Vec<Entry>, AllocError>
        ensures { IfOk result (λ es. es.items ≡ entries_in self.now) }
    {
        let mut copies = Vec::with_capacity(alloc, self.len())?;
        for place in 0..self.len() {
            let stored = self.stored(place).unwrap();
            let seen = EntryRef::of(&stored);
            let entry = copy_of(alloc, seen.entry())?;
            add(&mut copies, entry);
        }
        Ok(copies)
    }
}

/// Returns a copy of an entry.
fn copy_of(alloc: Global, entry: &Entry) -> Result<Entry, AllocError>
    ensures { IfOk result (λ e. e ≡ entry.now) }
{
    let event = entry.event.try_copy(alloc)?;
    Ok(Entry {
        event,
        reply: entry.reply,
    })
}

/// Adds an entry to a list that has memory for it.
fn add(entries: &mut Vec<Entry>, entry: Entry)
    requires { length entries.old.items < vec_capacity entries.old }
    ensures items { Adds entries.old.items entry entries.new.items }
    ensures room { vec_capacity entries.old ≤ vec_capacity entries.new }
{
    // The checker has to see the types inside a reply before a vector stores one.
    let _types: Option<(Item, Received)> = None;
    let _ = entries.push(entry);
}
