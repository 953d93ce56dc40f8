use crate::packed_entry::PackedEntry;
use can_event::Entry;
use can_frame::Frame;

/// An entry in its stored form: packed in 32 bytes, with the list of FD frames, or whole in its own memory.
///
/// A caller that reads many entries can match on the packed variant directly. This avoids building an `Entry`, whose copies cost
/// more than reading it.
#[derive(Clone, Copy)]
pub enum StoredEntry<'a> {
    Packed(&'a [Frame], &'a PackedEntry),
    Whole(&'a Entry),
}
