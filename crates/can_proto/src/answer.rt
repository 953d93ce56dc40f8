ghost use Rattle.std.specs.Prelude.{◌≡◌, ◌≤◌, length};
ghost use Rattle.can_proto.specs.Causes.{cause_text};
ghost use Rattle.can_proto.specs.Spelling.{no_bus_load};

use crate::fault::ProtoFault;
use can_confine::Counters;
use can_event::{Closed, IfaceStats, Refusal, SocketStats};

/// A reply to a client.
#[derive(Debug, Clone, Copy, PartialEq, Eq)]
pub enum Answer {
    /// The greeting at the start of a session.
    Greeting,
    /// The command was carried out.
    Done,
    /// The reply to `echo`.
    Echo,
    /// The frame was sent. The field is the frame's number at the sending interface.
    Sent(u64),
    /// The reply to `stats`: the item counts of the socket and the frame counts of its interface.
    Stats(SocketStats, IfaceStats),
    /// The error counters of the interface.
    Status(Counters),
    /// The load of the bus.
    Load(BusLoad),
    /// The number of fault rules of the bus.
    Faults(u64),
    /// The socket was closed.
    Closing(Closed),
    /// The command was refused for this cause, and nothing was done.
    Refused(Cause),
}

/// The load of a bus and its bit rates in bits per second. All fields are 0 if the bus has no bit rates.
#[derive(Debug, Clone, Copy, PartialEq, Eq)]
pub struct BusLoad {
    /// The part of the last whole second during which the bus was busy, in thousandths.
    pub permille: u16,
    /// The total time in microseconds for which the bus has been busy since it started.
    pub micros: u64,
    /// The nominal bit rate in bits per second.
    pub bitrate: u32,
    /// The data bit rate in bits per second. It equals the nominal bit rate if the bus has no separate data bit rate.
    pub dbitrate: u32,
}

impl BusLoad {
    /// Returns the load of a bus without bit rates.
    pub fn none() -> BusLoad
        ensures { result ≡ no_bus_load }
    {
        BusLoad {
            permille: 0,
            micros: 0,
            bitrate: 0,
            dbitrate: 0,
        }
    }
}

/// The origin of a frame, as seen from the interface of the socket that received it. The field is the frame's number at the sending
/// interface.
#[derive(Debug, Clone, Copy, PartialEq, Eq)]
pub enum Origin {
    /// The same interface sent the frame.
    Same(u64),
    /// Another interface sent the frame.
    Other(u64),
}

/// The reason why the server did not carry out a client's message.
#[derive(Debug, Clone, Copy, PartialEq, Eq)]
pub enum Cause {
    NoMemory,
    RecordFull,
    NoInterface,
    BadCapacity,
    TooManySockets,
    NoSocket,
    FdOff,
    BusOff,
    NoBuffers,
    NotBusOff,
    TooManyPasses,
    InvalidFilter,
    TooManyFilters,
    EmptyMessage,
    UnknownCommand,
    WrongState,
    ModeNotSupported,
    BadCount,
    BadId,
    BadLength,
    BadByte,
    BadNumber,
    MessageTooLong,
    TooManySessions,
    WrongStation,
    BadRule,
    TooManyRules,
    Down,
}

impl Cause {
    /// Returns the text of the cause, which has at most 18 bytes.
    pub fn text(self) -> &'static [u8]
        ensures text { result.now ≡ cause_text self }
        ensures short { length result.now ≤ 18 }
    {
        match self {
            Cause::NoMemory => b"no memory",
            Cause::RecordFull => b"record full",
            Cause::NoInterface => b"no such interface",
            Cause::BadCapacity => b"bad capacity",
            Cause::TooManySockets => b"too many sockets",
            Cause::NoSocket => b"no socket",
            Cause::FdOff => b"fd frames off",
            Cause::BusOff => b"bus off",
            Cause::NoBuffers => b"no buffers",
            Cause::NotBusOff => b"not bus off",
            Cause::TooManyPasses => b"too many passes",
            Cause::InvalidFilter => b"invalid filter",
            Cause::TooManyFilters => b"too many filters",
            Cause::EmptyMessage => b"empty message",
            Cause::UnknownCommand => b"unknown command",
            Cause::WrongState => b"wrong state",
            Cause::ModeNotSupported => b"mode not supported",
            Cause::BadCount => b"bad word count",
            Cause::BadId => b"bad id",
            Cause::BadLength => b"bad length",
            Cause::BadByte => b"bad byte",
            Cause::BadNumber => b"bad number",
            Cause::MessageTooLong => b"message too long",
            Cause::TooManySessions => b"too many sessions",
            Cause::WrongStation => b"wrong station",
            Cause::BadRule => b"bad rule",
            Cause::TooManyRules => b"too many rules",
            Cause::Down => b"interface down",
        }
    }
}

impl From<ProtoFault> for Cause {
    ghost use Rattle.std.specs.Prelude.{◌≡◌};
    ghost use Rattle.can_proto.specs.Causes.{cause_of_fault};

    ghost from_gives = { λ fault cause. cause ≡ cause_of_fault fault };

    fn from(fault: ProtoFault) -> Cause {
        match fault {
            ProtoFault::NoMemory => Cause::NoMemory,
            ProtoFault::InvalidFilter => Cause::InvalidFilter,
            ProtoFault::TooManyFilters => Cause::TooManyFilters,
            ProtoFault::EmptyMessage => Cause::EmptyMessage,
            ProtoFault::UnknownCommand => Cause::UnknownCommand,
            ProtoFault::WrongState => Cause::WrongState,
            ProtoFault::ModeNotSupported => Cause::ModeNotSupported,
            ProtoFault::BadCount => Cause::BadCount,
            ProtoFault::BadId => Cause::BadId,
            ProtoFault::BadLength => Cause::BadLength,
            ProtoFault::BadByte => Cause::BadByte,
            ProtoFault::BadNumber => Cause::BadNumber,
        }
    }
}

impl From<Refusal> for Cause {
    ghost use Rattle.std.specs.Prelude.{◌≡◌};
    ghost use Rattle.can_proto.specs.Causes.{cause_of_refusal};

    ghost from_gives = { λ refusal cause. cause ≡ cause_of_refusal refusal };

    fn from(refusal: Refusal) -> Cause {
        match refusal {
            Refusal::RecordFull => Cause::RecordFull,
            Refusal::NoInterface => Cause::NoInterface,
            Refusal::BadCapacity => Cause::BadCapacity,
            Refusal::TooManySockets => Cause::TooManySockets,
            Refusal::NoSocket => Cause::NoSocket,
            Refusal::FdOff => Cause::FdOff,
            Refusal::BusOff => Cause::BusOff,
            Refusal::NoBuffers => Cause::NoBuffers,
            Refusal::NotBusOff => Cause::NotBusOff,
            Refusal::NoMemory => Cause::NoMemory,
            Refusal::Down => Cause::Down,
        }
    }
}
