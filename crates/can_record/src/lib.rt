//! The record of a bus: its configuration, and each event on it with its reply.
//!
//! The record of a bus takes 32 bytes for each entry, while an `Entry` takes 208. Unpacking returns exactly the same entry. Every
//! entry that a bus returns fits in 32 bytes, except one with the filters of a socket, which take additional memory in any case. FD
//! frames are in a second list. The memory for all entries is taken at once, so adding an entry takes none. `PackedRecord` is such
//! a list. `PackedList` can grow; its caller reserves memory before it adds an entry.
//!
//! `Record` is the record that a bus keeps, or that was read from a text. `EntryRef` is one of its entries, unpacked for the reader
//! or borrowed. `StoredEntry` is an entry in its stored form, for callers that read many entries.
#![tactic(auto)]

mod attempt_end;
mod attempt_stamp;
mod boxed;
pub mod entries;
pub mod entry_ref;
mod entry_store;
mod frame_words;
pub mod outcomes;
pub mod packed_entry;
pub mod packed_list;
pub mod packed_record;
mod packing;
pub mod records;
pub mod stored_entry;
mod unpacking;
mod verdicts;

pub use attempt_end::AttemptEnd;
pub use attempt_stamp::AttemptStamp;
pub use entries::{Entries, EntriesIter};
pub use entry_ref::EntryRef;
pub use frame_words::{IdWord, data_in};
pub use outcomes::{receive_reply, sent_reply};
pub use packed_entry::PackedEntry;
pub use packed_list::PackedList;
pub use packed_record::PackedRecord;
pub use records::Record;
pub use stored_entry::StoredEntry;
pub use unpacking::{event_in, reply_in};
