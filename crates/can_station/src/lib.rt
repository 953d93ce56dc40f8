//! A bus that several threads share.
//!
//! A caller enters the station and gets a pass. Each call with a pass is one event of the bus, made under the station's lock. A
//! pass keeps a list of its calls with their replies. A light pass keeps no list: only contracts see its calls. A [`Hold`] keeps
//! the lock for several calls. At the end `settle` takes the passes back and returns the record. The record is a legal history that
//! contains the calls of each pass in order.
//!
//! A station works over any [`Journaled`](can_bus::Journaled) bus. By default the bus keeps its whole record. On the bus of a long
//! run (`new_long`) another thread takes the entries in blocks ([`Block`]) and holds the station's [`Scroll`]. If that thread is
//! late, calls wait. The contract of `settle_scroll` states that all blocks together are the first entries of the history.
//!
//! The lock protects a [`StationState`], whose methods are proved. A [`Station`] adds the lock and the waiting. A waiting thread
//! sleeps until a call that can matter to it wakes it.
//!
//! There is no guarantee about how long a call waits for the lock, or about the order in which threads get it. Deadlock between
//! threads is not ruled out.
#![tactic(auto)]

mod attempts;
mod bus_name;
mod calls;
pub mod gate;
mod gauges;
pub mod hold;
mod kept;
pub mod long;
pub mod pass;
mod publishing;
pub mod refusals;
pub mod station;
pub mod station_state;
mod taking;
mod wait_queues;
mod waits;

pub use bus_name::BusName;
pub use can_roll::Scroll;
pub use gate::{Gate, Open, Point};
pub use hold::Hold;
pub use long::Block;
pub use pass::{Pass, Settled};
pub use refusals::{StationRefusal, TooManyPasses, WrongStation};
pub use station::{Blanks, Station};
pub use station_state::StationState;
pub use waits::WakeReason;
