//! Fault confinement: the error counters of an interface and the state that follows from them. In a `Counters` the transmit count
//! is at most 263 and the receive count at most 255. Each method returns the counters after one step. In contracts counters are the
//! two counts and whether the interface is down.
#![tactic(auto)]

pub mod counters;
pub mod laws;
pub mod state;

pub use counters::{Counters, MAX_REC, MAX_TEC};
pub use state::State;
