ghost use Rattle.std.specs.Prelude.{◌≡◌, ◌++◌, IfErr, OnOk};
ghost use Rattle.std.specs.Io.KnownBytes.{Appends};
ghost use Rattle.canbusd_io.specs.declared.program_error.ProgramError.TheVariants as told;
ghost use Rattle.canbusd_audit.specs.Audited.{FitsLines, HasNote, IsCutWritten, IsQuiet, IsTold, IsWritten, last_cut_line, last_line};

use crate::notes::{record_note, with_cut_note};
use crate::wrong_entries::wrong_note;
use can_record_text::ReadFault;
use can_replay::{Cut, TextFault, WrongLine};
use canbusd_io::{OUTPUT, ProgramError, Report, write_failure};
use std::alloc::Global;
use std::io;
use std::io::Write;

/// Reports the result of an audit after the whole text was read. `first` is the first line of the text. If the record is legal,
/// writes the number of its entries. With events, writes the last lines about rules and the end line instead.
pub fn tell_end<'a, W: Write>(
    alloc: Global,
    path: &str,
    first: &[u8],
    found: Result<usize, TextFault>,
    rules: &[u8],
    has_events: bool,
    output: &mut W,
) -> Result<(), Report<'a>>
    requires { IfErr found HasNote }
    ensures legal { OnOk result
        (IsWritten has_events rules.now found (W.contents output.old) (W.contents output.new)) }
    ensures fault { IfErr result (λ failure. IsTold found failure.error) }
    ensures quiet { IfErr result (λ failure. IsQuiet failure.error output.old output.new) }
{
    match found {
        Ok(count) => write_count(alloc, count, rules, has_events, output),
        Err(TextFault::Read(fault)) => {
            let failure = text_failure(alloc, path, first, b"", fault);
            Err(with_cut_note(alloc, failure, fault))
        }
        Err(TextFault::Wrong(wrong)) => Err(wrong_failure(alloc, path, &wrong)),
    }
}

// Writes the number of entries of a complete record.
fn write_count<'a, W: Write>(
    alloc: Global,
    count: usize,
    rules: &[u8],
    has_events: bool,
    output: &mut W,
) -> Result<(), Report<'a>>
    ensures legal { OnOk result
        (Appends (W.contents output.old) (W.contents output.new)
        (rules.now ++ last_line has_events count)) }
    ensures fault { IfErr result (λ failure. failure.error ≡ told.Write) }
{
    let written = write_end(output, count, rules, has_events);
    written.map_err(|error| write_failure(alloc, OUTPUT, &error))
}

/// Reports the result of an audit of a text that may be cut off. `torn` contains the bytes after the last LF. Otherwise it does the
/// same as `tell_end`.
pub fn tell_cut<'a, W: Write, E: Write>(
    alloc: Global,
    path: &str,
    first: &[u8],
    found: Result<Cut, TextFault>,
    torn: &[u8],
    rules: &[u8],
    has_events: bool,
    output: &mut W,
    errors: &mut E,
) -> Result<(), Report<'a>>
    requires { IfErr found HasNote }
    ensures legal { OnOk result
        (IsCutWritten has_events rules.now found (W.contents output.old) (W.contents output.new)) }
    ensures fault { IfErr result (λ failure. IsTold found failure.error) }
    ensures quiet { IfErr result (λ failure. IsQuiet failure.error output.old output.new) }
{
    match found {
        Ok(Cut::Whole(count)) => write_count(alloc, count, rules, has_events, output),
        Ok(Cut::Off(count)) => tell_off(alloc, count, torn, rules, has_events, output, errors),
        Err(TextFault::Read(fault)) => Err(text_failure(alloc, path, first, torn, fault)),
        Err(TextFault::Wrong(wrong)) => Err(wrong_failure(alloc, path, &wrong)),
    }
}

// Writes the number of entries of a record that is cut off. A note says how many bytes of an incomplete line were ignored.
fn tell_off<'a, W: Write, E: Write>(
    alloc: Global,
    count: usize,
    torn: &[u8],
    rules: &[u8],
    has_events: bool,
    output: &mut W,
    errors: &mut E,
) -> Result<(), Report<'a>>
    ensures legal { OnOk result
        (Appends (W.contents output.old) (W.contents output.new)
        (rules.now ++ last_cut_line has_events count)) }
    ensures fault { IfErr result (λ failure. failure.error ≡ told.Write) }
{
    if !torn.is_empty() {
        let bytes = torn.len();
        let _ = writeln!(
            errors,
            "note: {bytes} bytes of a line without its end were not looked at"
        );
    }
    let written = write_cut(output, count, rules, has_events);
    written.map_err(|error| write_failure(alloc, OUTPUT, &error))
}

// Writes the last lines about rules and the end line of a complete record.
fn write_end<W: Write>(
    output: &mut W,
    count: usize,
    rules: &[u8],
    has_events: bool,
) -> io::Result<()>
    ensures { OnOk result (Appends (W.contents output.old) (W.contents output.new)
        (rules.now ++ last_line has_events count)) }
{
    output.write_all(rules)?;
    if has_events {
        writeln!(output, "end {count}")
    } else {
        writeln!(output, "ok {count} entries")
    }
}

// Writes the last lines about rules and the end line of a record that is cut off.
fn write_cut<W: Write>(
    output: &mut W,
    count: usize,
    rules: &[u8],
    has_events: bool,
) -> io::Result<()>
    ensures { OnOk result (Appends (W.contents output.old) (W.contents output.new)
        (rules.now ++ last_cut_line has_events count)) }
{
    output.write_all(rules)?;
    if has_events {
        writeln!(output, "cut {count}")
    } else {
        writeln!(output, "ok {count} entries, then cut off")
    }
}

// Returns the report for a text that is not the text of a record. `torn` contains the bytes after the last LF.
fn text_failure<'a>(
    alloc: Global,
    path: &str,
    first: &[u8],
    torn: &[u8],
    fault: ReadFault,
) -> Report<'a>
    ensures { result.error ≡ told.Record fault }
{
    let note = record_note(alloc, path, last_shown(first, torn, fault), fault);
    Report::with(alloc, ProgramError::Record(fault), note)
}

// Returns the report for a record with a wrong entry.
fn wrong_failure<'a>(alloc: Global, path: &str, wrong: &WrongLine) -> Report<'a>
    requires { FitsLines wrong.now }
    ensures { result.error ≡ told.WrongEntry wrong.now.place }
{
    let note = wrong_note(alloc, path, wrong);
    Report::with(alloc, ProgramError::WrongEntry(wrong.place), note)
}

// Returns the line to show with a fault of the whole text. It is usually `torn`, the bytes after the last LF, which is empty if a
// line is missing. If the version is wrong but every line is valid, it is the first line.
fn last_shown<'a>(first: &'a [u8], torn: &'a [u8], fault: ReadFault) -> &'a [u8] {
    match fault {
        ReadFault::BadVersion if !first.is_empty() => first,
        _ => torn,
    }
}
