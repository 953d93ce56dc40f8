ghost use Rattle.std.specs.Prelude.{◌↔◌, IsTrue};
ghost use Rattle.can_event.specs.Events.{IsConfig, IsLongConfig};

use can_attempt::AckMode;
use can_frame::IfaceSet;

/// The largest capacity of a transmit queue, in frames.
pub const MAX_TX_CAPACITY: u32 = 1024;

/// The largest capacity of a socket's receive queue, in items.
pub const MAX_RX_CAPACITY: u32 = 65_536;

/// The largest limit of events for a bus.
pub const MAX_LIMIT: u32 = 16_777_216;

/// The largest limit of events for the bus of a long run.
pub const MAX_LONG_LIMIT: u32 = 4_294_967_294;

/// The largest number of attempts until an interface that went bus off is restarted automatically.
pub const MAX_AUTO_RESTART: u32 = 1_000_000;

/// The configuration of a bus.
#[derive(Debug, Clone, Copy, PartialEq, Eq)]
pub struct BusConfig {
    /// The number of interfaces, 1 to 16.
    pub ifaces: u8,
    /// Whether every frame is acknowledged, or only a frame that some receiver gets without an error.
    pub ack: AckMode,
    /// The interfaces whose sockets get an error message frame for each fault. Bits for interfaces that do not exist have no
    /// effect.
    pub reporting: IfaceSet,
    /// The capacity of each transmit queue in frames, 1 to 1,024.
    pub tx_capacity: u32,
    /// The largest number of events on the bus, 1 to 16,777,216. For the bus of a long run it is 1 to 4,294,967,294.
    pub limit: u32,
    /// The number of attempts after which an interface that went bus off is restarted, 1 to 1,000,000; 0 means never.
    pub auto_restart: u32,
}

impl BusConfig {
    /// Returns whether a bus can have this configuration: each number is within its limits.
    pub fn is_proper(self) -> bool
        ensures { IsTrue result ↔ IsConfig self }
    {
        self.limit <= MAX_LIMIT && self.is_long_proper()
    }

    /// Returns whether the bus of a long run can have this configuration. Such a bus does not keep its whole record in memory.
    pub fn is_long_proper(self) -> bool
        ensures { IsTrue result ↔ IsLongConfig self }
    {
        let BusConfig {
            ifaces,
            tx_capacity,
            limit,
            auto_restart,
            ..
        } = self;
        ifaces >= 1
            && ifaces <= 16
            && tx_capacity >= 1
            && tx_capacity <= MAX_TX_CAPACITY
            && limit >= 1
            && limit <= MAX_LONG_LIMIT
            && auto_restart <= MAX_AUTO_RESTART
    }
}
