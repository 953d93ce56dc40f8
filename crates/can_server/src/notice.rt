use can_frame::Iface;
use std::net::SocketAddr;

/// A report from a running server to its host. The sessions of each acceptor are numbered from 1.
#[derive(Debug, Clone, Copy)]
pub enum Notice {
    /// A session began. The client has this address, or it connected to a Unix path.
    Came {
        session: u32,
        from: Option<SocketAddr>,
    },
    /// The server refused a client because it had too many sessions.
    TurnedAway {
        session: u32,
        from: Option<SocketAddr>,
    },
    /// The server closed a connection that did not begin the way a client begins. Such a connection may come from a web page, for
    /// example.
    Strange {
        session: u32,
    },
    /// A session opened a socket on this interface of a bus.
    Opened {
        session: u32,
        bus: usize,
        iface: Iface,
    },
    /// A session has ended. `refused` is the number of its frames that were refused, and `dropped` is the number of items that its
    /// socket dropped. The counts may be too low if the record is full.
    Went {
        session: u32,
        refused: u64,
        dropped: u64,
    },
    /// An interface of a bus went bus off.
    WentOff {
        bus: usize,
        iface: Iface,
    },
    /// An interface of a bus was restarted.
    Restarted {
        bus: usize,
        iface: Iface,
    },
    /// The driver of this bus, which has bit rates, was `millis` milliseconds late and skipped the lost time. The server reports a
    /// late driver at most once a minute.
    Late {
        bus: usize,
        millis: u64,
    },
    /// The record of this bus is nine tenths full. The server reports this once.
    NearlyFull {
        bus: usize,
    },
    /// The record of this bus is full, so the bus refuses all further calls. The server reports this once.
    Full {
        bus: usize,
    },
    /// The driver of this bus ran out of memory, so it makes no more attempts. The server reports this once.
    NoDriver {
        bus: usize,
    },
    /// An interface of a bus was taken down.
    WentDown {
        bus: usize,
        iface: Iface,
    },
}
