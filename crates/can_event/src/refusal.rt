ghost use Rattle.std.specs.Prelude.{◌≡◌};
ghost use Rattle.can_event.specs.Spelled.{leaves_entry};

use thiserror::Error;

/// Why a call was refused.
#[derive(Debug, Clone, Copy, PartialEq, Eq, Error)]
pub enum Refusal {
    /// The record already has as many entries as the limit of the bus allows.
    #[error("record full")]
    RecordFull,
    /// The bus has no such interface.
    #[error("no such interface")]
    NoInterface,
    /// The capacity is outside the limits of a receive queue.
    #[error("bad capacity")]
    BadCapacity,
    /// The largest number of sockets is already open.
    #[error("too many sockets")]
    TooManySockets,
    /// No socket with this number is open.
    #[error("no socket")]
    NoSocket,
    /// The frame is an FD frame, but the socket has not enabled FD frames.
    #[error("fd frames off")]
    FdOff,
    /// The interface is bus off.
    #[error("bus off")]
    BusOff,
    /// The transmit queue is full.
    #[error("no buffers")]
    NoBuffers,
    /// The interface is neither bus off nor down.
    #[error("not bus off")]
    NotBusOff,
    /// Memory was refused.
    #[error("no memory")]
    NoMemory,
    /// The interface is down.
    #[error("interface down")]
    Down,
}

impl Refusal {
    /// Returns whether a call with this refusal adds an entry to the record: every refusal except `RecordFull` and `NoMemory` does.
    pub fn leaves_entry(self) -> bool
        ensures { result ≡ leaves_entry self }
    {
        !matches!(self, Refusal::RecordFull | Refusal::NoMemory)
    }
}
