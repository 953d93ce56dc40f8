//! A simulated CAN bus: interfaces with transmit queues, sockets with receive queues, and the
//! record of all events.
//!
//! Each call is one event, and the events before it fix its reply. `specs/Legal.antt` defines that
//! reply by filtering and counting the list of entries, and each call is proved to return it. `run`
//! extends this to every list of events.
#![tactic(auto)]

pub mod attempted;
mod attempts;
pub mod bus;
mod countdown;
mod history;
mod interface;
mod interfaces;
pub mod journaled;
pub mod laws;
pub mod lean_bus;
pub mod long_bus;
mod posting;
pub mod runs;
mod socket;
mod sockets;
mod state;

pub use attempted::Attempted;
pub use attempts::begun_anew;
pub use bus::{Bus, BusFault, ListBus, RingBus};
pub use can_event::{
    Attempt, BusConfig, Closed, Entry, Event, IfaceStats, Opt, Pending, Received, Refusal, Reply,
    SocketId, SocketStats, Tried, is_spelled,
};
pub use can_record::{Entries, EntriesIter, EntryRef, PackedRecord, Record, StoredEntry};
pub use journaled::Journaled;
pub use lean_bus::{LeanBus, LeanRingBus};
pub use long_bus::{LongBus, LongEnd, LongRingBus, TAIL_SIZE};
pub use runs::{RunFault, run};
pub use state::{RingState, State};
