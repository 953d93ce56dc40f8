//! The files of a run: the record of a bus and its log. If a run writes no file although it was requested, a note says so.
ghost use Rattle.std.specs.Prelude.{◌≡◌, ◌-◌, ◌==◌, count_by, IfErr, OnOk};
ghost use Rattle.can_record_text.specs.Texts.{text_of};
ghost use Rattle.canbusd_io.specs.declared.program_error.ProgramError.TheVariants as fault;
ghost use Rattle.canbusd_io.specs.Files.{IsOfLogFile, IsOfRecordFile, IsOfWriting, Took, log_text};

use crate::draft::Draft;
use crate::files::{open_failure, write_failure};
use crate::names::read_names;
use crate::program_error::ProgramError;
use crate::report::Report;
use crate::shown::Shown;
use can_bus::Record;
use can_frame::{Names, count_of};
use can_logfile::write_tape;
use can_record_text::write_record;
use canbusd_options::BusWord;
use std::alloc::{AllocError, Global};
use std::fs;
use std::io::{BufWriter, Error, ErrorKind, Write};
use std::rt::Files;

/// The number of bytes of a log that are written at once.
const LOG_BLOCK: usize = 65_536;

/// Writes the text of a record to the file with this path. The text is first written to a file whose name ends with `.new`, so an
/// existing file stays unchanged until the new text is complete. If the existing file is not a regular file, the text is written
/// there directly.
pub fn save_record<'a, H: Files>(
    rt: &H,
    alloc: Global,
    path: &'a str,
    record: &Record,
) -> Result<(), Report<'a>>
    ensures { IfErr result (λ failure. IsOfRecordFile path.now failure.error) }
{
    let no_memory = |_| Report::new(alloc, ProgramError::NoMemory);
    let draft = String::from_str(alloc, path)
        .and_then(|path| Draft::at(rt, alloc, path))
        .map_err(no_memory)?;
    draft.clear(rt);
    match save_record_at(rt, alloc, path, draft.draft(), record) {
        Ok(()) => draft
            .take_name(rt)
            .map_err(|error| open_failure(alloc, path, &error)),
        Err(failure) => {
            draft.clear(rt);
            Err(failure)
        }
    }
}

/// Writes the text of a record to the file `at`. Errors are reported for `path`, which will be the final name of the file.
pub fn save_record_at<'a, H: Files>(
    rt: &H,
    alloc: Global,
    path: &'a str,
    at: &str,
    record: &Record,
) -> Result<(), Report<'a>>
    ensures { IfErr result (λ failure. IsOfRecordFile path.now failure.error) }
{
    let file = create(rt, alloc, path, at)?;
    let mut file = BufWriter::new(alloc, file).map_err(|_| Report::new(
        alloc,
        ProgramError::NoMemory,
    ))?;
    put_record(alloc, path, record, &mut file)
}

/// Writes the log of a bus's record to the file with this path. If there is an error, the report says how many complete lines the
/// file contains and calls the log by the first name of the bus.
pub fn save_log<'a, H: Files>(
    rt: &H,
    alloc: Global,
    path: &'a str,
    bus: BusWord<'a>,
    record: &Record,
) -> Result<(), Report<'a>>
    ensures { IfErr result (λ failure. IsOfLogFile bus.entry path.now failure.error) }
{
    save_log_at(rt, alloc, path, path, bus, record)
}

/// Writes the log of a bus's record to the file `at`. An error in opening the file is reported for `path`, which will be the final
/// name of the file.
pub fn save_log_at<'a, H: Files>(
    rt: &H,
    alloc: Global,
    path: &'a str,
    at: &str,
    bus: BusWord<'a>,
    record: &Record,
) -> Result<(), Report<'a>>
    ensures { IfErr result (λ failure. IsOfLogFile bus.entry path.now failure.error) }
{
    let names = read_names(alloc, bus.names)?;
    let file = create(rt, alloc, path, at)?;
    let Ok(mut file) = BufWriter::with_capacity(alloc, LOG_BLOCK, file) else {
        return Err(Report::new(alloc, ProgramError::NoMemory));
    };
    let put = put_log(&names, record, &mut file);
    let (_, unwritten) = file.into_parts();
    match put {
        Ok(()) => Ok(()),
        Err(lines) => Err(log_failure(alloc, bus.first_name(), lines, &unwritten)),
    }
}

/// Adds a note to the error of a run that stopped before it wrote its record or its log. No note is added if the file was not
/// requested.
pub fn without<'a, H: Files>(
    rt: &H,
    alloc: Global,
    failure: Report<'a>,
    kind: &str,
    path: Option<&str>,
) -> Report<'a>
    ensures { result.error ≡ failure.entry.error }
{
    let Some(path) = path else {
        return failure;
    };
    match unwritten_note(rt, alloc, kind, path) {
        Ok(note) => failure.and(&note),
        Err(_) => failure,
    }
}

fn unwritten_note<H: Files>(
    rt: &H,
    alloc: Global,
    kind: &str,
    path: &str,
) -> Result<String, AllocError> {
    let file = Shown::whole(path);
    let old = match fs::exists(rt, path) {
        Ok(true) => ": the old file of this name stays as it is",
        _ => "",
    };
    format!(in alloc; "  no {kind} was written to {file}{old}\n")
}

fn create<'a, H: Files>(
    rt: &H,
    alloc: Global,
    path: &'a str,
    at: &str,
) -> Result<H::File, Report<'a>>
    ensures { IfErr result (λ failure. failure.error ≡ fault.CannotOpen path.entry) }
{
    fs::create(rt, at).map_err(|error| open_failure(alloc, path, &error))
}

// Writes the complete text of a record.
fn put_record<'a, W: Write>(
    alloc: Global,
    path: &str,
    record: &Record,
    file: &mut W,
) -> Result<(), Report<'a>>
    ensures written { OnOk result (Took W.contents file.old file.new (text_of «record».now)) }
    ensures fault { IfErr result (λ failure. IsOfWriting failure.error) }
{
    write_record(alloc, record, file).map_err(|error| record_failure(alloc, path, &error))?;
    file.flush()
        .map_err(|error| write_failure(alloc, path, &error))
}

// Writes the lines of a log. If there is an error, returns how many complete lines the writer accepted.
fn put_log<W: Write>(names: &Names, record: &Record, file: &mut W) -> Result<(), u64>
    ensures { OnOk result (Took W.contents file.old file.new (log_text names.now «record».now)) }
{
    let lines = match write_tape(names, record, file) {
        Ok(lines) => lines,
        Err(fault) => return Err(fault.whole_lines),
    };
    file.flush().map_err(|_| lines)
}

// Returns the report for an error in writing a log. `lines` is the number of complete lines written so far, including those in a
// buffer. `unwritten` contains the bytes that are still in the buffer.
fn log_failure<'a>(alloc: Global, name: &'a str, lines: u64, unwritten: &[u8]) -> Report<'a>
    ensures { result.error ≡ fault.Log name.entry (lines - count_by (λ b. b == 10) unwritten.now) }
{
    let whole_lines = lines.saturating_sub(count_of(unwritten, b'\n') as u64);
    Report::new(alloc, ProgramError::Log { name, whole_lines })
}

// Returns the report for an error in writing a record.
fn record_failure<'a>(alloc: Global, path: &str, error: &Error) -> Report<'a>
    ensures { IsOfWriting result.error }
{
    if error.kind() == ErrorKind::OutOfMemory {
        Report::new(alloc, ProgramError::NoMemory)
    } else {
        write_failure(alloc, path, error)
    }
}
