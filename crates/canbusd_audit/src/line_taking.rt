ghost use Rattle.std.specs.Prelude.{◌≡◌, ◌≢◌, ◌-◌, ◌⊎◌, [], IfErr, IfOk, IsTrue, OnOk, Some, false, length, slice_get};
ghost use Rattle.can_replay.specs.declared.wanted.Wanted.{Wanted as AWanted};
ghost use Rattle.can_replay.specs.EventTexts.{HasWritten, has_events, held_events};
ghost use Rattle.can_replay.specs.TextAudits.{EndsNoLine, bus_taken};
ghost use Rattle.canbusd_audit.specs.Audited.{FaultsLast, FaultsLine, FitsBus, IsInputTaken, IsNextLine, IsOfLine, IsOfOtherBus, IsOfSomeLine, Leaves, StopsEvents, TakesLast, output_of};
ghost use Rattle.canbusd_io.specs.Files.{IsOfReading};

use crate::buffered::{Buffered, take_held};
use crate::events::put_events;
use crate::known_bus::put_known;
use crate::notes::{record_note, with_cut_note};
use can_record_text::ReadFault;
use can_replay::TextAudit;
use canbusd_io::{ProgramError, Report, read_failure, utf8_note};
use std::alloc::Global;
use std::io::{BufRead, Write};
use std::str;

/// Takes the lines of an input up to its end and returns how many there are. The bytes after the last LF remain in `torn`. If the
/// audit collects events, they are written after each read. If `ifaces` is given, the bus of the record must have this many
/// interfaces; otherwise nothing is written. If a line is wrong, the lines after it are still read, because input that is not UTF-8
/// text is reported as such, wherever the invalid bytes are.
pub fn take_lines<'a, R: BufRead, W: Write>(
    alloc: Global,
    path: &str,
    ifaces: Option<u8>,
    input: &mut R,
    audit: &mut TextAudit,
    torn: &mut Vec<u8>,
    output: &mut W,
) -> Result<u64, Report<'a>>
    requires written { (w : AWanted) × HasWritten w [] [] audit.old }
    requires none { held_events audit.old.events ≡ [] }
    ensures taken { OnOk result ((w : AWanted) → HasWritten w [] [] audit.old →
        IsInputTaken w (R.remaining input.old) audit.new torn.new.items
        W.contents output.old output.new) }
    ensures fits { OnOk result (FitsBus ifaces (bus_taken audit.new.phase)) }
    ensures fault { IfErr result (λ failure.
        StopsEvents (has_events audit.old.events) failure.error ⊎
        (IsOfOtherBus ifaces (R.remaining input.old) failure.error ⊎
        FaultsLine (R.remaining input.old) failure.error)) }
    ensures written { IfErr result (λ failure. (w : AWanted) → HasWritten w [] [] audit.old →
        Leaves (output_of w audit.old.events) ifaces (R.remaining input.old) failure.error
        W.contents output.old output.new) }
    ensures asked { has_events audit.new.events ≡ has_events audit.old.events }
{
    let mut lines = 0;
    for _ in 0..u64::MAX {
        match take_held(alloc, input, audit, &mut lines) {
            Ok(Buffered::Lines) => put_known(alloc, path, ifaces, audit, output)?,
            Ok(Buffered::End) => {
                torn.clear();
                return Ok(lines);
            }
            Ok(Buffered::Wrong(fault)) => {
                put_events(alloc, audit, output)?;
                return Err(held_failure(alloc, path, lines, input, torn, fault));
            }
            Err(error) => return Err(read_failure(alloc, path, &error)),
        }
        match next_line(alloc, path, input, torn) {
            Ok(true) => {}
            Ok(false) => return Ok(lines),
            Err(failure) => return Err(failure),
        }
        lines = lines.saturating_add(1);
        match audit.carry(alloc, torn) {
            Ok(()) => put_known(alloc, path, ifaces, audit, output)?,
            Err(fault) => {
                return Err(line_failure(alloc, path, lines, input, torn, fault));
            }
        }
    }
    Err(Report::new(alloc, ProgramError::Read))
}

/// Takes the bytes after the last LF as the last line, if there are any. `lines` is the number of lines before it.
pub fn take_last<'a>(
    alloc: Global,
    path: &str,
    lines: u64,
    audit: &mut TextAudit,
    torn: &[u8],
) -> Result<(), Report<'a>>
    requires { EndsNoLine torn.now }
    ensures taken { OnOk result (TakesLast audit.old torn.now audit.new) }
    ensures fault { IfErr result (λ failure. FaultsLast audit.old torn.now failure.error) }
    ensures line { IfErr result (λ failure. IsOfSomeLine failure.error) }
    ensures asked { has_events audit.new.events ≡ has_events audit.old.events }
{
    if torn.is_empty() {
        return Ok(());
    }
    let has_end_line = audit.has_end_line();
    let lines = lines.saturating_add(1);
    match audit.carry(alloc, torn) {
        Ok(()) => Ok(()),
        Err(fault) => {
            let failure = torn_failure(alloc, path, lines, torn, fault);
            if has_end_line {
                Err(failure)
            } else {
                Err(with_cut_note(alloc, failure, fault))
            }
        }
    }
}

// Returns the report for a wrong last line.
fn torn_failure<'a>(
    alloc: Global,
    path: &str,
    number: u64,
    torn: &[u8],
    fault: ReadFault,
) -> Report<'a>
    ensures { IsOfLine fault result.error }
{
    if str::from_utf8(torn).is_err() {
        let note = utf8_note(alloc, path, number, torn);
        return Report::with(alloc, ProgramError::Read, note);
    }
    let note = record_note(alloc, path, torn, fault);
    Report::with(alloc, ProgramError::Record(fault), note)
}

// Returns the report for a wrong line that is still in the input. `lines` is the number of lines before it.
#[inline(never)]
fn held_failure<'a, R: BufRead>(
    alloc: Global,
    path: &str,
    lines: u64,
    input: &mut R,
    line: &mut Vec<u8>,
    fault: ReadFault,
) -> Report<'a>
    ensures { IsOfLine fault result.error }
{
    match next_line(alloc, path, input, line) {
        Ok(_) => line_failure(alloc, path, lines.saturating_add(1), input, line, fault),
        Err(failure) => failure,
    }
}

// Returns the report for a wrong line.
fn line_failure<'a, R: BufRead>(
    alloc: Global,
    path: &str,
    number: u64,
    input: &mut R,
    line: &mut Vec<u8>,
    fault: ReadFault,
) -> Report<'a>
    ensures { IsOfLine fault result.error }
{
    let note = record_note(alloc, path, line, fault);
    match read_rest(alloc, path, number, input, line) {
        Ok(()) => Report::with(alloc, ProgramError::Record(fault), note),
        Err(failure) => failure,
    }
}

// Reads the rest of the input after a wrong line. Checks that this line and all later lines are UTF-8 text.
fn read_rest<'a, R: BufRead>(
    alloc: Global,
    path: &str,
    first: u64,
    input: &mut R,
    line: &mut Vec<u8>,
) -> Result<(), Report<'a>>
    ensures { IfErr result (λ failure. IsOfReading failure.error) }
{
    for number in first..u64::MAX {
        if str::from_utf8(line).is_err() {
            let note = utf8_note(alloc, path, number, line);
            return Err(Report::with(alloc, ProgramError::Read, note));
        }
        if !next_line(alloc, path, input, line)? {
            return Ok(());
        }
    }
    Err(Report::new(alloc, ProgramError::Read))
}

// Reads the next line with its LF. Returns false if the rest of the input contains no LF; the rest was then read.
fn next_line<'a, R: BufRead>(
    alloc: Global,
    path: &str,
    input: &mut R,
    line: &mut Vec<u8>,
) -> Result<bool, Report<'a>>
    ensures read { IfOk result (λ is.
        IsNextLine is (R.remaining input.old) (R.remaining input.new) line.new.items) }
    ensures fault { IfErr result (λ failure. IsOfReading failure.error) }
{
    line.clear();
    match input.read_until(b'\n', line) {
        Ok(_) => Ok(has_end(line)),
        Err(error) => Err(read_failure(alloc, path, &error)),
    }
}

// Returns whether the bytes end with LF.
fn has_end(bytes: &[u8]) -> bool
    ensures yes { IsTrue result → slice_get bytes.now (length bytes.now - 1) ≡ Some 10 }
    ensures no { result ≡ false → slice_get bytes.now (length bytes.now - 1) ≢ Some 10 }
{
    match bytes.last() {
        Some(last) => *last == b'\n',
        None => false,
    }
}
