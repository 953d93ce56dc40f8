//! `canbusd audit`: checks whether the text of a record is the text of a legal history. The audit itself is
//! `can_replay::TextAudit`, which takes the lines as they are read. These properties are proved here. `ok N entries` is written
//! only for the text of a legal record with N entries. `ok N entries, then cut off` is written only for a text that begins such a
//! record and ends after the lines of N entries. The reported fault is the one that the audit found: the first wrong line or the
//! first wrong entry. With `--events`, the events of the entries are written instead of these lines. They show when each frame was
//! on the wire at the bit rates in the options, and which rules gave attempts their verdicts. The rules belong to faults that some
//! text spells for the names in the options. For a legal record, all events are written and nothing else. Before a fault, the
//! events of the legal entries before it are written. If the number of names differs from the number of the bus's interfaces,
//! nothing is written, even if there is a fault later. An error in reading or writing, or lack of memory, says nothing about the
//! record. No contract says what bytes a file contains. So a fault of an audit concerns the file with its path, or a text that the
//! file may contain.
#![tactic(auto)]

mod audit_job;
mod buffered;
mod ends;
mod events;
mod joined;
mod known_bus;
mod line_taking;
mod notes;
mod wrong_entries;

pub use audit_job::{audit_cut_lines, audit_files, audit_lines};
