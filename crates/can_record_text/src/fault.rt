use thiserror::Error;

/// Why a text could not be read as a record.
#[derive(Debug, Clone, Copy, PartialEq, Eq, Error)]
pub enum ReadFault {
    /// The text does not begin with the first line of a version that the reader knows. Or each line is right in version 3,
    /// 5 or 6, but no line needs that version.
    #[error("bad version")]
    BadVersion,
    /// The number of the first line that is wrong or missing, from 1.
    #[error("line {0}: bad line")]
    BadLine(u64),
    /// Memory was refused.
    #[error("no memory")]
    NoMemory,
}

/// Why a line could not be read.
#[derive(Debug, Clone, Copy, PartialEq, Eq)]
pub enum Unread {
    /// It spells nothing.
    Bad,
    /// Memory was refused.
    NoMemory,
}
