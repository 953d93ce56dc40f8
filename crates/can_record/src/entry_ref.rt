ghost use Rattle.std.specs.Prelude.{◌≡◌};
ghost use Rattle.can_record.specs.StoredEntry.{entry_stored, IsStored};

use crate::stored_entry::StoredEntry;
use crate::unpacking::{event_in, reply_in};
use can_event::Entry;
use std::marker::Model;
use std::ops::Deref;

/// An entry to read: unpacked for the reader, or borrowed from the record. Contracts see it as the entry.
#[derive(Drop)]
pub struct EntryRef<'a> {
    cow: EntryCow<'a>,
}

/// An entry that is owned or borrowed.
#[derive(Drop)]
enum EntryCow<'a> {
    Owned(Entry),
    Borrowed(&'a Entry),
}

impl<'a> Model for EntryRef<'a> {
    ghost use Rattle.can_event.specs.declared.entry.Entry.{Entry};
    ghost use Rattle.can_record.specs.EntryRef.{entry_seen};

    ghost Value = { Entry };

    ghost view = { λ l. entry_seen l.cow };
}

impl<'a> EntryRef<'a> {
    /// Returns a stored entry to read. A packed entry is unpacked; any other entry is borrowed.
    pub fn of(stored: &StoredEntry<'a>) -> EntryRef<'a>
        requires { IsStored stored.now }
        ensures { result ≡ entry_stored stored.now }
    {
        let cow = match stored {
            StoredEntry::Packed(frames, kept) => EntryCow::Owned(Entry {
                event: event_in(frames, kept),
                reply: reply_in(frames, kept),
            }),
            StoredEntry::Whole(entry) => EntryCow::Borrowed(entry),
        };
        EntryRef { cow }
    }

    /// The entry.
    pub fn entry(&self) -> &Entry
        ensures { result.now ≡ self.now }
    {
        match &self.cow {
            EntryCow::Owned(entry) => entry,
            EntryCow::Borrowed(entry) => entry,
        }
    }
}

impl<'a> Deref for EntryRef<'a> {
    type Target = Entry;

    ghost deref_gives = { λ seen entry. entry ≡ seen };

    fn deref(&self) -> &Entry {
        self.entry()
    }
}
