//! The text of a record: `record_text` writes a record as text, and `read_record` reads it back. Each record has exactly
//! one text, in one version, and each text is of at most one record.
//!
//! The functions that read and write single lines are public for can_replay, which reads a text line by line. `write_line`
//! writes any line to a writer that may fail; can_logfile uses it too.
#![tactic(auto)]

mod entry_lines;
pub mod event_reading;
pub mod fault;
mod fields;
mod filter_lines;
mod line_words;
pub mod line_writing;
pub mod lines;
pub mod long_writing;
pub mod needs;
mod numbers;
mod packed_lines;
pub mod record_reading;
pub mod record_writing;
mod reply_reading;
pub mod rooms;
pub mod text_laws;
mod values;
pub mod version;
mod words;

pub use fault::ReadFault;
pub use line_writing::write_line;
pub use long_writing::{Torn, write_block, write_end, write_front};
pub use record_reading::{read_record, read_record_bytes};
pub use record_writing::{line_text, record_text, write_record};
