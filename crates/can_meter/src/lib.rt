//! Publishes the status of interfaces in one atomic word each, which is read without a lock.
//!
//! A meter has up to 16 interfaces. Its `Keeper` publishes changes of an interface's error counters, together with the length of
//! the bus's record at that time. Any number of `Gauge`s, in any threads, read the newest publication. Each read is a single load,
//! so neither side waits for the other.
//!
//! To a contract the keeper is, for each interface, the list of all its publications, newest first. A gauge is the part of these
//! lists that it has seen. Each list of a gauge is a suffix of the keeper's list: a gauge has seen nothing that was not published,
//! nothing in between is missing, and the list never shrinks.
#![tactic(auto)]

mod blank;
mod gauge;
mod keeper;
mod making;
mod rule;
mod status;
mod word;

pub use blank::{MeterBlank, MeterName, meter_blank};
pub use gauge::Gauge;
pub use keeper::Keeper;
pub use making::meter;
pub use status::Status;
