//! A slow reference implementation for tests. This crate also re-exports the text format and the audit of records, which have their
//! own crates. The program uses `can_record_text` and `can_replay` directly, so its build does not have to prove this reference.
//! The reference is slow because it filters and counts the list of entries again for every query. It has one function for each
//! definition in `can_bus`. `replies_of` computes the replies of a bus to a list of events in a different way from the bus itself.
//! `queued`, `candidates` and `projected` return the items of a record that reached a socket. The running time grows at least with
//! the square of the number of entries.
#![tactic(auto)]

mod attempts;
mod counters;
mod post;
pub mod queues;
pub mod replies;
mod restarts;
mod sockets;
mod transmit;

pub use can_record_text::{
    ReadFault, line_text, read_record, read_record_bytes, record_text, write_record,
};
pub use can_replay::{AuditFault, Cut, TextAudit, TextFault, WrongLine, audit};
pub use queues::{candidates, projected, queued};
pub use replies::{ReplayFault, replies_of};
