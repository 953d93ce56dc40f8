//! Functions that read files. No contract says what bytes a file contains.
ghost use Rattle.std.specs.Prelude.{◌≡◌, IfErr};
ghost use Rattle.canbusd_io.specs.declared.program_error.ProgramError.TheVariants as fault;
ghost use Rattle.canbusd_io.specs.Files.{IsOfFile, IsOfReading};

use crate::limited_reads::{LimitedReads, MOST_READS};
use crate::notes::reason_note;
use crate::program_error::ProgramError;
use crate::report::Report;
use crate::shown::SourceLine;
use can_frame::count_of;
use std::alloc::{AllocError, Global};
use std::fs;
use std::io::{Error, ErrorKind, Read};
use std::rt::Files;

/// The name of standard input in error reports.
pub const INPUT: &str = "standard input";

/// The name of standard output in error reports.
pub const OUTPUT: &str = "standard output";

/// Opens the file with this path. It can be read at most 16,777,216 times.
pub fn open_file<'a, H: Files>(
    rt: &H,
    alloc: Global,
    path: &'a str,
) -> Result<LimitedReads<H::File>, Report<'a>>
    ensures { IfErr result (λ failure. failure.error ≡ fault.CannotOpen path.entry) }
{
    match fs::open(rt, path) {
        Ok(file) => Ok(LimitedReads::new(alloc, file, MOST_READS)),
        Err(error) => Err(open_failure(alloc, path, &error)),
    }
}

/// Returns the contents of the file with this path as text.
pub(crate) fn read_file<'a, H: Files>(
    rt: &H,
    alloc: Global,
    path: &'a str,
) -> Result<String, Report<'a>>
    ensures { IfErr result (λ failure. IsOfFile path.now failure.error) }
{
    let mut file = open_file(rt, alloc, path)?;
    read_text(alloc, path, &mut file)
}

/// Reads all bytes of a file with this path and returns them as UTF-8 text.
pub fn read_text<'a, R: Read>(
    alloc: Global,
    path: &'a str,
    file: &mut R,
) -> Result<String, Report<'a>>
    ensures { IfErr result (λ failure. IsOfReading failure.error) }
{
    let mut bytes = Vec::new(alloc);
    match file.read_to_end(&mut bytes) {
        Ok(_) => text_of(alloc, path, bytes),
        Err(error) => Err(read_failure(alloc, path, &error)),
    }
}

fn text_of<'a>(alloc: Global, path: &str, bytes: Vec<u8>) -> Result<String, Report<'a>>
    ensures { IfErr result (λ failure. failure.error ≡ fault.Read) }
{
    String::from_utf8(bytes).map_err(|error| {
        let valid = error.utf8_error().valid_up_to();
        let ends = count_of(
            &error.as_bytes()[..valid.min(error.as_bytes().len())],
            b'\n',
        );
        let line = error.as_bytes().split(|byte| *byte == b'\n').nth(ends);
        let number = (ends as u64).saturating_add(1);
        let note = utf8_note(alloc, path, number, line.unwrap_or(b""));
        Report::with(alloc, ProgramError::Read, note)
    })
}

/// Returns a note on a line of a file that is not UTF-8 text. The line may end with LF.
pub fn utf8_note(
    alloc: Global,
    path: &str,
    number: u64,
    line: &[u8],
) -> Result<String, AllocError> {
    let line = SourceLine::new(path, number, line.strip_suffix(b"\n").unwrap_or(line));
    format!(in alloc; "  {line}\n  this line is no UTF-8 text\n")
}

/// Returns the report for a file or stream that could not be opened.
pub(crate) fn open_failure<'a>(alloc: Global, path: &'a str, error: &Error) -> Report<'a>
    ensures { result.error ≡ fault.CannotOpen path.entry }
{
    Report::with(
        alloc,
        ProgramError::CannotOpen(path),
        reason_note(alloc, path, error),
    )
}

/// Returns the report for an error in reading a file or stream.
pub fn read_failure<'a>(alloc: Global, place: &str, error: &Error) -> Report<'a>
    ensures { IsOfReading result.error }
{
    if error.kind() == ErrorKind::OutOfMemory {
        Report::new(alloc, ProgramError::NoMemory)
    } else {
        Report::with(alloc, ProgramError::Read, reason_note(alloc, place, error))
    }
}

/// Returns the report for an error in writing a file or stream.
pub fn write_failure<'a>(alloc: Global, place: &str, error: &Error) -> Report<'a>
    ensures { result.error ≡ fault.Write }
{
    Report::with(alloc, ProgramError::Write, reason_note(alloc, place, error))
}
