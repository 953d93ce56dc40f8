//! Audits whether a record is a legal history of a bus, by carrying out the events again on a new bus and comparing each reply.
//! `audit` takes a record. It returns `Ok`, or the first wrong entry with the reply that would be legal there. By the laws, the
//! record determines this result. If no allocation of a bus fails, a list of events has exactly one list of replies. `TextAudit`
//! takes the text of a record line by line, and stores neither the text nor the record. For a whole text it gives the same result
//! as `read_record` followed by `audit`: the first faulty line, or else the first wrong entry with the legal reply. A text may be
//! cut off, for example because the run was killed; then `TextAudit` returns the number of entries that it contains. An audit with
//! events also writes the events of each entry, in the line format of can_replay. The text of a record's events contains the line
//! of each entry, followed by the effects of the entry. The effects are changed error counts, frames lost because an interface went
//! bus off or down, and items that were queued on sockets or dropped. If the timing of the bus is given, the line of each tried
//! frame also contains its times and its bits on the wire. If the faults of the run are given, the line of an attempt also contains
//! the number of the rule that gave its verdict. `Before` stores the state of a bus before an entry, and writes the line of the
//! entry afterwards. `specs/EventsText.antt` defines the text of a whole history.
#![tactic(auto)]

pub mod audits;
pub mod before;
mod changed;
mod entry_audit;
mod events_text;
pub mod fronts;
pub mod laws;
mod parts;
mod ruled;
mod same;
mod taken_rules;
pub mod text_audit;
pub mod text_fault;
pub mod wanted;
mod wire;
mod words;

pub use audits::{AuditFault, audit};
pub use before::Before;
pub use fronts::first_line;
pub use text_audit::TextAudit;
pub use text_fault::{Cut, TextFault, WrongLine};
pub use wanted::Wanted;
