ghost use Rattle.std.specs.Prelude.{◌≡◌, ◌⊎◌, [], IfErr, IfOk, None, OnOk, map};
ghost use Rattle.can_replay.specs.EventTexts.{HasWritten, has_events, held_events, rules_last};
ghost use Rattle.canbusd_io.specs.declared.program_error.ProgramError.TheVariants as told;
ghost use Rattle.canbusd_audit.specs.Audited.{Audits, AuditsCut, AuditsFiles, AuditsSome, FaultsCut, FaultsFiles, FaultsInput, IsAskedBy, IsOfAsked, IsOfFiles, IsOfOtherBus, Leaves, LeavesFiles, StopsEvents, are_events, asks_events, ifaces_named, wanted_of};

use crate::ends::{tell_cut, tell_end};
use crate::joined::Joined;
use crate::known_bus::put_known;
use crate::line_taking::{take_last, take_lines};
use can_replay::{TextAudit, Wanted};
use canbusd_io::{LimitedReads, ProgramError, Report, open_file, read_faults};
use canbusd_options::{AuditOptions, AuditOutput};
use std::alloc::{AllocError, Global};
use std::io::{BufRead, BufReader, Write};
use std::rt::Files;

/// Audits a record whose text is in the files that the options name, one after another. If the record is a legal history, writes
/// the number of its entries. With `--events`, writes the events of the entries instead, up to the first entry that is not legal.
/// The faults of the run are read first, if the options name them.
pub fn audit_files<'a, H: Files, W: Write, E: Write>(
    rt: &H,
    alloc: Global,
    options: &AuditOptions<'a>,
    output: &mut W,
    errors: &mut E,
) -> Result<(), Report<'a>>
    ensures legal { OnOk result
        (AuditsFiles options.now.is_cut options.now.output W.contents output.old output.new) }
    ensures fault { IfErr result (λ failure. IsOfAsked options.now.output failure.error ⊎
        (StopsEvents (are_events options.now.output) failure.error ⊎
        (IsOfOtherBus (ifaces_named options.now.output) None failure.error ⊎
        FaultsFiles options.now.is_cut (map (λ file. file.now) options.now.files.items)
        failure.error))) }
    ensures written { IfErr result (λ failure.
        LeavesFiles options.now.output failure.error W.contents output.old output.new) }
{
    let (asked, ifaces) = read_asked(rt, alloc, &options.output)?;
    audit_asked(rt, alloc, options, asked, ifaces, output, errors)
}

// Returns the parts of the events that the options request, with the faults of the run, and the number of interfaces for which the
// faults have names. Either value is `None` if the options do not request it.
fn read_asked<'a, H: Files>(
    rt: &H,
    alloc: Global,
    output: &AuditOutput<'a>,
) -> Result<(Option<Wanted>, Option<u8>), Report<'a>>
    ensures asked { IfOk result (λ asked. IsAskedBy output.now asked.0) }
    ensures ifaces { IfOk result (λ asked. asked.1 ≡ ifaces_named output.now) }
    ensures fault { IfErr result (λ failure. IsOfAsked output.now failure.error) }
{
    let AuditOutput::Events(asked) = output else {
        return Ok((None, None));
    };
    let timing = asked.timing;
    let Some(word) = &asked.faults else {
        let faults = None;
        return Ok((Some(Wanted { timing, faults }), None));
    };
    let known = read_faults(rt, alloc, *word)?;
    let faults = Some(known.faults);
    Ok((Some(Wanted { timing, faults }), Some(known.ifaces)))
}

// Audits the files as `audit_files` does. The faults of the run have already been read.
fn audit_asked<'a, H: Files, W: Write, E: Write>(
    rt: &H,
    alloc: Global,
    options: &AuditOptions<'a>,
    asked: Option<Wanted>,
    ifaces: Option<u8>,
    output: &mut W,
    errors: &mut E,
) -> Result<(), Report<'a>>
    ensures legal { OnOk result
        (AuditsSome options.now.is_cut asked ifaces W.contents output.old output.new) }
    ensures fault { IfErr result (λ failure.
        StopsEvents (asks_events asked) failure.error ⊎
        (IsOfOtherBus ifaces None failure.error ⊎
        FaultsFiles options.now.is_cut (map (λ file. file.now) options.now.files.items)
        failure.error)) }
    ensures written { IfErr result (λ failure.
        Leaves asked ifaces None failure.error W.contents output.old output.new) }
{
    let files = open_files(rt, alloc, &options.files)?;
    let Ok(name) = joined_name(alloc, &options.files) else {
        return Err(Report::new(alloc, ProgramError::NoMemory));
    };
    let Ok(mut input) = BufReader::new(alloc, Joined::new(files)) else {
        return Err(Report::new(alloc, ProgramError::NoMemory));
    };
    if options.is_cut {
        audit_cut_lines(alloc, &name, &mut input, asked, ifaces, output, errors)
    } else {
        audit_lines(alloc, &name, &mut input, asked, ifaces, output)
    }
}

// Returns an audit that has taken no lines. It collects events if the options request them.
fn new_audit<'a>(alloc: Global, asked: Option<Wanted>) -> Result<TextAudit, Report<'a>>
    ensures written { IfOk result (λ audit. HasWritten (wanted_of asked) [] [] audit) }
    ensures none { IfOk result (λ audit. held_events audit.events ≡ []) }
    ensures asked { IfOk result (λ audit. has_events audit.events ≡ asks_events asked) }
    ensures fault { IfErr result (λ failure. failure.error ≡ told.NoMemory) }
{
    let Some(wanted) = asked else {
        return Ok(TextAudit::new(alloc));
    };
    match TextAudit::with_events(alloc, wanted) {
        Ok(audit) => Ok(audit),
        Err(_) => Err(Report::new(alloc, ProgramError::NoMemory)),
    }
}

// Returns the lines for the rules that the bus accepts after the last entry, and for each removal of all rules.
fn last_rules<'a>(alloc: Global, audit: &mut TextAudit) -> Result<Vec<u8>, Report<'a>>
    ensures lines { IfOk result (λ lines. lines.items ≡ rules_last audit.old.events) }
    ensures phase { audit.new.phase ≡ audit.old.phase }
    ensures fault { IfErr result (λ failure. failure.error ≡ told.NoMemory) }
{
    match audit.last_rules(alloc) {
        Ok(lines) => Ok(lines),
        Err(_) => Err(Report::new(alloc, ProgramError::NoMemory)),
    }
}

// Returns whether the options request events.
fn is_with_events(asked: &Option<Wanted>) -> bool
    ensures { result ≡ asks_events asked.now }
{
    asked.is_some()
}

// Opens the files with these paths.
fn open_files<'a, H: Files>(
    rt: &H,
    alloc: Global,
    paths: &[&'a str],
) -> Result<Vec<LimitedReads<H::File>>, Report<'a>>
    ensures { IfErr result (λ failure. IsOfFiles (map (λ path. path.now) paths.now) failure.error) }
{
    let mut files = Vec::new(alloc);
    for path in paths {
        let file = open_file(rt, alloc, path)?;
        if files.push(file).is_err() {
            return Err(Report::new(alloc, ProgramError::NoMemory));
        }
    }
    Ok(files)
}

// Returns the name for the joined text of these files, which is used in notes.
fn joined_name(alloc: Global, paths: &[&str]) -> Result<String, AllocError> {
    let mut name = String::new(alloc);
    for (place, path) in paths.iter().enumerate() {
        if place > 0 {
            name.push_str(" + ")?;
        }
        name.push_str(path)?;
    }
    Ok(name)
}

/// Audits a record. Its text is read from the file with this path. If the record is a legal history, writes the number of its
/// entries. With events, writes the events of the entries instead, up to the first entry that is not legal. If `ifaces` is given,
/// the bus must have this many interfaces. The text is read once and line by line, so it may be read from a pipe. Neither the text
/// nor the record is kept in memory. Only the events of the lines from one read are kept.
pub fn audit_lines<'a, R: BufRead, W: Write>(
    alloc: Global,
    path: &str,
    input: &mut R,
    asked: Option<Wanted>,
    ifaces: Option<u8>,
    output: &mut W,
) -> Result<(), Report<'a>>
    ensures legal { OnOk result
        (Audits asked ifaces (R.remaining input.old) W.contents output.old output.new) }
    ensures fault { IfErr result (λ failure.
        StopsEvents (asks_events asked) failure.error ⊎
        (IsOfOtherBus ifaces (R.remaining input.old) failure.error ⊎
        FaultsInput (R.remaining input.old) failure.error)) }
    ensures written { IfErr result (λ failure.
        Leaves asked ifaces (R.remaining input.old) failure.error W.contents output.old
        output.new) }
{
    let has_events = is_with_events(&asked);
    let mut audit = new_audit(alloc, asked)?;
    let mut torn = Vec::new(alloc);
    let lines = take_lines(alloc, path, ifaces, input, &mut audit, &mut torn, output)?;
    take_last(alloc, path, lines, &mut audit, &torn)?;
    put_known(alloc, path, ifaces, &mut audit, output)?;
    let first = audit.first_line();
    let rules = last_rules(alloc, &mut audit)?;
    tell_end(
        alloc,
        path,
        first,
        audit.finish(),
        &rules,
        has_events,
        output,
    )
}

/// Audits a record whose text may be cut off, for example because the run was killed. If the record is legal as far as it goes,
/// writes the number of its entries and that it is cut off. Otherwise it does the same as `audit_lines`.
pub fn audit_cut_lines<'a, R: BufRead, W: Write, E: Write>(
    alloc: Global,
    path: &str,
    input: &mut R,
    asked: Option<Wanted>,
    ifaces: Option<u8>,
    output: &mut W,
    errors: &mut E,
) -> Result<(), Report<'a>>
    ensures legal { OnOk result
        (AuditsCut asked ifaces (R.remaining input.old) W.contents output.old output.new) }
    ensures fault { IfErr result (λ failure.
        StopsEvents (asks_events asked) failure.error ⊎
        (IsOfOtherBus ifaces (R.remaining input.old) failure.error ⊎
        FaultsCut (R.remaining input.old) failure.error)) }
    ensures written { IfErr result (λ failure.
        Leaves asked ifaces (R.remaining input.old) failure.error W.contents output.old
        output.new) }
{
    let has_events = is_with_events(&asked);
    let mut audit = new_audit(alloc, asked)?;
    let mut torn = Vec::new(alloc);
    take_lines(alloc, path, ifaces, input, &mut audit, &mut torn, output)?;
    let first = audit.first_line();
    let rules = last_rules(alloc, &mut audit)?;
    let found = audit.finish_cut(&torn);
    tell_cut(
        alloc, path, first, found, &torn, &rules, has_events, output, errors,
    )
}
