//! Reads scripts of faults and writes notes on a wrong line of a script.
ghost use Rattle.std.specs.Prelude.{◌≡◌, List, ℕ, IfErr, IfOk, Ok};
ghost use Rattle.can_rules.specs.Plans.{ReadsPlan};
ghost use Rattle.can_rules.specs.RunFaults.{ReadsRunFaults};
ghost use Rattle.canbusd_io.specs.Files.{IsOfFile, IsOfRunFile, IsOfRunText, IsOfScript, IsOfScriptFile, script_fault_of};

use crate::files::read_file;
use crate::notes::{WITH_CR, fixed_note, line_of};
use crate::program_error::ProgramError;
use crate::report::Report;
use crate::rule_notes::{later_note, rule_note, unknown_name_note};
use crate::shown::SourceLine;
use can_fault::ScriptError;
use can_frame::Names;
use can_rules::{Plan, PlanError, RunFaults, begins_as_later, begins_as_rule};
use std::alloc::{AllocError, Global};
use std::rt::Files;

/// Reads the script at this path for a bus, and returns its faults and its text. The names of the bus are passed twice: in `names`,
/// and in `bus` as on the command line.
pub fn read_script<'a, H: Files>(
    rt: &H,
    alloc: Global,
    path: &'a str,
    bus: &str,
    names: &Names,
) -> Result<(Plan, String), Report<'a>>
    ensures text { IfOk result (λ r. ReadsPlan names.now r.1.bytes.items (Ok r.0)) }
    ensures fault { IfErr result (λ failure. IsOfScriptFile path.now names.now failure.error) }
{
    let text = read_script_file(rt, alloc, path)?;
    let plan = script_in(alloc, path, &text, bus, names)?;
    Ok((plan, text))
}

/// Reads the faults that a bus had in a run. In addition to a script, the file contains the rules that were added or removed during
/// the run.
pub fn read_run_faults<'a, H: Files>(
    rt: &H,
    alloc: Global,
    path: &'a str,
    bus: &str,
    names: Names,
) -> Result<RunFaults, Report<'a>>
    ensures faults { IfOk result (λ faults.
        (text : List ℕ) × ReadsRunFaults names text (Ok faults)) }
    ensures fault { IfErr result (λ failure. IsOfRunFile path.now names failure.error) }
{
    let text = read_script_file(rt, alloc, path)?;
    run_faults_in(alloc, path, &text, bus, names)
}

// Returns the text of the script at this path.
fn read_script_file<'a, H: Files>(
    rt: &H,
    alloc: Global,
    path: &'a str,
) -> Result<String, Report<'a>>
    ensures { IfErr result (λ failure. IsOfFile path.now failure.error) }
{
    read_file(rt, alloc, path).map_err(|failure| failure.and(path_note(path)))
}

// Returns a note on a likely mistake in the path of a script, or an empty string.
fn path_note(path: &str) -> &'static str {
    if path.is_empty() {
        "  the path of a script comes after @\n"
    } else if path.contains('@') {
        "  one script serves all names of a bus: its path begins after the first @\n"
    } else {
        ""
    }
}

// Returns the faults that the text of a file spells.
fn script_in<'a>(
    alloc: Global,
    path: &str,
    text: &str,
    bus: &str,
    names: &Names,
) -> Result<Plan, Report<'a>>
    ensures plan { IfOk result (λ plan. ReadsPlan names.now text.now (Ok plan)) }
    ensures fault { IfErr result (λ failure. IsOfScript names.now text.now failure.error) }
{
    match Plan::read(alloc, text, names) {
        Ok(plan) => Ok(plan),
        Err(fault) => {
            let notes = script_note(alloc, path, text, bus, fault);
            Err(script_failure(alloc, fault, notes))
        }
    }
}

// Returns the faults of a run that the text of a file spells.
fn run_faults_in<'a>(
    alloc: Global,
    path: &str,
    text: &str,
    bus: &str,
    names: Names,
) -> Result<RunFaults, Report<'a>>
    ensures faults { IfOk result (λ faults. ReadsRunFaults names text.now (Ok faults)) }
    ensures fault { IfErr result (λ failure. IsOfRunText names text.now failure.error) }
{
    match RunFaults::read(alloc, text, names) {
        Ok(faults) => Ok(faults),
        Err(fault) => {
            let notes = run_note(alloc, path, text, bus, fault);
            Err(script_failure(alloc, fault, notes))
        }
    }
}

// Returns the report for an error in a script.
fn script_failure<'a>(
    alloc: Global,
    fault: PlanError,
    notes: Result<String, AllocError>,
) -> Report<'a>
    ensures { result.error ≡ script_fault_of fault }
{
    match fault {
        PlanError::Script(ScriptError::NoMemory) => Report::new(alloc, ProgramError::NoMemory),
        _ => Report::with(alloc, ProgramError::Script(fault), notes),
    }
}

// Returns a note with the wrong line of a script and the reason.
fn script_note(
    alloc: Global,
    path: &str,
    text: &str,
    names: &str,
    fault: PlanError,
) -> Result<String, AllocError> {
    let Some(number) = wrong_line(fault) else {
        return Ok(String::new(alloc));
    };
    let line = line_of(text, number);
    let note = if begins_as_rule(line) {
        rule_note(alloc, line, names)?
    } else {
        numbered_note(alloc, text, names, fault)?
    };
    with_line(alloc, path, number, line, &note)
}

// Returns a note with the wrong line in a file of a run's faults and the reason.
fn run_note(
    alloc: Global,
    path: &str,
    text: &str,
    names: &str,
    fault: PlanError,
) -> Result<String, AllocError> {
    match wrong_line(fault) {
        Some(number) if begins_as_later(line_of(text, number)) => {
            let line = line_of(text, number);
            let note = later_note(alloc, line, names)?;
            with_line(alloc, path, number, line, &note)
        }
        _ => script_note(alloc, path, text, names, fault),
    }
}

// Returns the number of the wrong line.
fn wrong_line(fault: PlanError) -> Option<usize> {
    match fault {
        PlanError::Script(
            ScriptError::BadLine(number)
            | ScriptError::UnknownInterface(number)
            | ScriptError::RepeatedAttempt(number),
        )
        | PlanError::TooManyRules(number) => Some(number),
        PlanError::Script(ScriptError::NoMemory) => None,
    }
}

// Puts a line of a script before the note on it.
fn with_line(
    alloc: Global,
    path: &str,
    number: usize,
    line: &str,
    note: &str,
) -> Result<String, AllocError> {
    let line = SourceLine::new(path, number as u64, line.as_bytes());
    format!(in alloc; "  {line}\n{note}")
}

// Returns a note that says why a line is wrong that is not a rule.
fn numbered_note(
    alloc: Global,
    text: &str,
    names: &str,
    fault: PlanError,
) -> Result<String, AllocError> {
    match fault {
        PlanError::Script(ScriptError::BadLine(number)) => {
            bad_verdict_note(alloc, line_of(text, number))
        }
        PlanError::Script(ScriptError::UnknownInterface(number)) => {
            unknown_note(alloc, line_of(text, number), names)
        }
        PlanError::Script(ScriptError::RepeatedAttempt(number)) => {
            repeated_note(alloc, text, number)
        }
        PlanError::Script(ScriptError::NoMemory) | PlanError::TooManyRules(_) => {
            Ok(String::new(alloc))
        }
    }
}

fn bad_verdict_note(alloc: Global, line: &str) -> Result<String, AllocError> {
    if line.ends_with('\r') {
        return fixed_note(alloc, WITH_CR);
    }
    if !has_number(line) {
        return fixed_note(
            alloc,
            "a line is NUMBER VERDICT, as 0 lastbit, or a rule, as next 32 from can0 global bit: NUMBER has 1 to 8 digits, and one space follows it",
        );
    }
    let verdict = line.split_once(' ').map_or("", |(_, verdict)| verdict);
    fixed_note(alloc, verdict_note(verdict))
}

// Returns the mistake in the words that follow the number at the start of a line.
fn verdict_note(verdict: &str) -> &'static str {
    if verdict.starts_with(' ') || verdict.contains("  ") {
        return "words are parted by one space";
    }
    let bare = ["good ", "lastbit ", "global bit ", "global form "];
    if bare.iter().any(|word| verdict.starts_with(*word)) {
        return "nothing may follow good, lastbit, global bit and global form";
    }
    let kinds = ["local stuff", "local crc", "local form"];
    for kind in kinds {
        match verdict.strip_prefix(kind) {
            Some("" | " ") => return "the names of the interfaces that see the fault are missing",
            Some(names) if names.starts_with(' ') => {
                return "names of 1 to 15 bytes are joined by commas, without spaces";
            }
            _ => {}
        }
    }
    "VERDICT is good, lastbit, global bit, global form, local stuff NAMES, local crc NAMES or local form NAMES"
}

// Returns whether a line begins with a valid attempt number and a space.
fn has_number(line: &str) -> bool {
    match line.split_once(' ') {
        Some((number, _)) => {
            !number.is_empty()
                && number.len() <= 8
                && number.bytes().all(|byte| byte.is_ascii_digit())
        }
        None => false,
    }
}

// Returns a note on the first name after the last space that the bus does not have.
fn unknown_note(alloc: Global, line: &str, names: &str) -> Result<String, AllocError> {
    let list = line.rsplit(' ').next().unwrap_or("");
    unknown_name_note(alloc, list, names)
}

// Returns a note with the number of the first line that is for the same attempt as this line.
fn repeated_note(alloc: Global, text: &str, number: usize) -> Result<String, AllocError> {
    let attempt = attempt_of(line_of(text, number));
    let place = text
        .split('\n')
        .position(|line| attempt_of(line) == attempt)
        .unwrap_or(0);
    let first = place.saturating_add(1);
    format!(in alloc; "  line {first} has a verdict for this attempt\n")
}

// Returns the number at the start of a line of a script.
fn attempt_of(line: &str) -> Option<u32> {
    let (number, _) = line.split_once(' ')?;
    number.parse().ok()
}
