//! The files that the program reads and writes, such as scripts of faults, records and logs, and the program's error messages.
//! `read_names`, `read_plan` and `bus_config` build a bus from its description on the command line. `read_faults` reads the faults
//! that a bus had in a run. `save_record` and `save_log` write the files of a run. If a command line could not be carried out, the
//! result is a `Report`: a `ProgramError` and the notes that follow its message. Four properties are proved here. The configuration
//! is the one that the settings define. The faults of a script are spelled by some text for the names of the bus. The record's
//! text, or the lines of its log, are written to the file. A report contains the error for which it was made. No contract says what
//! bytes a file contains. Tests show that only printable ASCII characters from a file or a client are shown.
#![tactic(auto)]

mod buses;
mod draft;
mod files;
mod limited_reads;
mod live;
mod live_faults;
mod live_file;
mod names;
mod notes;
mod program_error;
mod report;
mod rule_notes;
mod saved;
mod scripts;
mod shown;
mod whole_lines;

pub use buses::{KnownFaults, bus_config, limits_note, read_faults, read_plan};
pub use draft::Draft;
pub use files::{INPUT, OUTPUT, open_file, read_failure, read_text, utf8_note, write_failure};
pub use limited_reads::LimitedReads;
pub use live::{LiveLog, LiveRecord, LiveText};
pub use live_faults::LiveFaults;
pub use names::read_names;
pub use notes::{WITH_CR, fixed_note, reason_note};
pub use program_error::ProgramError;
pub use report::{Report, Reporter};
pub use rule_notes::rule_note;
pub use saved::{save_log, save_log_at, save_record, save_record_at, without};
pub use shown::{Shown, SourceLine};
