//! The log of a bus: the tried frames of its record as lines of text, in the format of candump's log files.
//!
//! `write_tape` writes one line for each tried frame of a record, the oldest first. `write_entries` writes the lines for a
//! block of entries while a long run continues. `specs/Log.antt` defines a line byte for byte. If the writer fails, the
//! fault reports the number of whole lines that were written.
#![tactic(auto)]

mod lines;
pub mod log_writing;

pub use log_writing::{LogFault, write_entries, write_tape};
