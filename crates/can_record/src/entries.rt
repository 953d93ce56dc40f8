ghost use Rattle.std.specs.Prelude.{◌≡◌, ◌==◌, length, slice_get};
ghost use Rattle.std.specs.Iterator.{YieldsFirst, item_count};
ghost use Rattle.can_record.specs.EntryStore.{entries_in};

use crate::entry_ref::EntryRef;
use crate::entry_store::EntryStore;
use std::marker::Model;

/// The entries of a record, the oldest first, borrowed by `Record::entries`. Contracts see them as a list.
#[derive(Drop)]
pub struct Entries<'a> {
    held: &'a EntryStore,
}

impl<'a> Model for Entries<'a> {
    ghost use Rattle.std.specs.Prelude.{List};
    ghost use Rattle.can_record.specs.EntryStore.{entries_in};
    ghost use Rattle.can_event.specs.declared.entry.Entry.{Entry};

    ghost Value = { List Entry };

    ghost view = { λ e. entries_in e.held.now };
}

impl<'a> Entries<'a> {
    /// Returns the entries of this store.
    pub(crate) fn of(held: &'a EntryStore) -> Entries<'a>
        ensures { result ≡ entries_in held.now }
    {
        Entries { held }
    }

    /// Returns the number of entries.
    pub fn len(&self) -> usize
        ensures { result ≡ length self.now }
    {
        let held = self.held;
        held.len()
    }

    /// Returns whether the record has no entries.
    pub fn is_empty(&self) -> bool
        ensures { result ≡ (length self.now == 0) }
    {
        self.len() == 0
    }

    /// Returns the entry at a place, or `None` if the place is past the end. Place 0 is the oldest entry. It takes no memory.
    pub fn get(&self, place: usize) -> Option<EntryRef<'a>>
        ensures { result ≡ slice_get self.now place }
    {
        let held = self.held;
        held.get(place)
    }

    /// Returns an iterator over the entries, the oldest first. It takes no memory.
    pub fn iter(&self) -> EntriesIter<'a>
        ensures { result ≡ self.now }
    {
        EntriesIter {
            held: self.held,
            place: 0,
        }
    }
}

/// An iterator over the entries of a record, the oldest first. Contracts see it as the list of the remaining entries.
#[derive(Drop)]
pub struct EntriesIter<'a> {
    held: &'a EntryStore,
    place: usize,
}

impl<'a> Model for EntriesIter<'a> {
    ghost use Rattle.std.specs.Prelude.{List, drop};
    ghost use Rattle.can_record.specs.EntryStore.{entries_in};
    ghost use Rattle.can_event.specs.declared.entry.Entry.{Entry};

    ghost Value = { List Entry };

    ghost view = { λ e. drop e.place (entries_in e.held.now) };
}

impl<'a> Iterator for EntriesIter<'a> {
    type Item = EntryRef<'a>;

    ghost next_gives = { YieldsFirst (λ left. left) };

    ghost remaining = { item_count (λ left. left) };

    #[tactic(auto, using(crate::proofs::Places::from_some, crate::proofs::Places::from_none, crate::proofs::Places::from_past))]
    fn next(&mut self) -> Option<EntryRef<'a>> {
        let held = self.held;
        if self.place >= held.len() {
            return None;
        }
        let entry = held.get(self.place)?;
        self.place += 1;
        Some(entry)
    }
}
