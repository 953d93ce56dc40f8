//! The calls on a bus and its answers: the configuration, the events, their replies and refusals, and the entries of a record.
//! These are plain types, so a crate can use them without calling a bus. The contracts define which configurations are within the
//! limits, and which entries have a line in the text of a record. Only the copy of an event takes memory.
#![tactic(auto)]

pub mod attempt;
pub mod bus_config;
pub mod entry;
pub mod event;
pub mod opt;
pub mod pending;
pub mod received;
pub mod refusal;
pub mod reply;
pub mod socket_id;
pub mod spelled;
pub mod stats;

pub use attempt::{Attempt, Tried};
pub use bus_config::{
    BusConfig, MAX_AUTO_RESTART, MAX_LIMIT, MAX_LONG_LIMIT, MAX_RX_CAPACITY, MAX_TX_CAPACITY,
};
pub use entry::Entry;
pub use event::Event;
pub use opt::Opt;
pub use pending::Pending;
pub use received::Received;
pub use refusal::Refusal;
pub use reply::{Closed, Reply};
pub use socket_id::SocketId;
pub use spelled::is_spelled;
pub use stats::{IfaceStats, SocketStats};
