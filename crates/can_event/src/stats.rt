use can_confine::Counters;

/// The item counts of a socket: items that were queued, items that were dropped because the queue was full, and queued items that
/// were already taken.
#[derive(Debug, Clone, Copy, PartialEq, Eq)]
pub struct SocketStats {
    pub queued: u64,
    pub dropped: u64,
    pub taken: u64,
}

/// The frame counts of an interface, and its error counters. Each frame that was sent is done, waiting, or lost because the
/// interface went bus off or down. `refused` counts the frames that were refused because the transmit queue was full.
#[derive(Debug, Clone, Copy, PartialEq, Eq)]
pub struct IfaceStats {
    pub sent: u64,
    pub done: u64,
    pub waiting: u64,
    pub lost: u64,
    pub refused: u64,
    pub counters: Counters,
}
