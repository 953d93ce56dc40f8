use can_bus::{Entry, Reply};
use can_record_text::ReadFault;
use std::fmt;
use thiserror::Error;

/// The first wrong entry of a record. Its reply does not follow from the entries before it, or it exceeds the limit of entries.
#[derive(Debug, Drop)]
pub struct WrongLine {
    /// The index of the entry, counted from 0.
    pub place: usize,
    pub entry: Entry,
    /// The reply that would be legal there, or `None` if the entry exceeds the limit.
    pub legal: Option<Reply>,
    /// The largest number of entries that the bus may have.
    pub limit: u32,
}

impl fmt::Display for WrongLine {
    fn fmt<W: fmt::Write>(&self, f: &mut fmt::Formatter<W>) -> fmt::Result {
        let place = self.place;
        write!(f, "entry {place}: wrong")
    }
}

/// The reason why a text is not the text of a legal record.
#[derive(Debug, Drop, Error)]
pub enum TextFault {
    /// The text is not a record, or an allocation failed.
    #[error("{0}")]
    Read(ReadFault),
    /// The text is a record with a wrong entry.
    #[error("{0}")]
    Wrong(WrongLine),
}

/// Whether a text is complete or cut off, and how many entries it contains. The record is legal so far.
#[derive(Debug, Clone, Copy, PartialEq, Eq)]
pub enum Cut {
    /// The text is complete, and its record contains this many entries.
    Whole(usize),
    /// The text is cut off before its last line, after the lines of this many entries.
    Off(usize),
}
