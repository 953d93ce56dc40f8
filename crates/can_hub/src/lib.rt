//! A hub of buses, and the connection between a session and the bus that it opens.
//!
//! A [`Hub`] has one station for each bus. A bus is numbered by its place. A [`PassPort`] is the port of a session. It enters the
//! station of the bus that has the interface name opened by the session, and makes each call with the pass. A [`LockedPort`] makes
//! several successive sends and receives under one hold of the lock. At the end [`Hub::settle`] takes the passes back. It returns
//! the record of each bus, or the entries of a long run that were not taken.
#![tactic(auto)]

pub mod bench;
pub mod buses;
pub mod hub;
pub mod hub_bus;
pub mod locked_port;
pub mod pass_port;
pub mod returned;
mod shown_time;
mod tally;

pub use bench::Bench;
pub use buses::Buses;
pub use hub::{Hub, SettleFault};
pub use hub_bus::{HubBus, HubEnd, Leaves};
pub use locked_port::LockedPort;
pub use pass_port::PassPort;
pub use returned::ReturnedPasses;
pub use tally::Tally;
