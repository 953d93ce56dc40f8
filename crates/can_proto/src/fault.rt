use thiserror::Error;

/// The reason why a message is not a valid command. The client receives the text of the fault.
#[derive(Debug, Clone, Copy, PartialEq, Eq, Error)]
pub enum ProtoFault {
    /// The allocator ran out of memory.
    #[error("no memory")]
    NoMemory,
    /// Bit 29 is set in the mask of a filter.
    #[error("invalid filter")]
    InvalidFilter,
    /// The message has more than 512 filters.
    #[error("too many filters")]
    TooManyFilters,
    /// The message contains no words.
    #[error("empty message")]
    EmptyMessage,
    /// The first word is not the name of a command.
    #[error("unknown command")]
    UnknownCommand,
    /// The command is not allowed in the current mode of the session.
    #[error("wrong state")]
    WrongState,
    /// The word names a mode of socketcand that this server does not support.
    #[error("mode not supported")]
    ModeNotSupported,
    /// The command has the wrong number of words.
    #[error("bad word count")]
    BadCount,
    /// The word is not an identifier.
    #[error("bad id")]
    BadId,
    /// The word is not a length that the command allows.
    #[error("bad length")]
    BadLength,
    /// The word is not a byte of one or two hexadecimal digits.
    #[error("bad byte")]
    BadByte,
    /// The word is not a number that the command allows.
    #[error("bad number")]
    BadNumber,
}
