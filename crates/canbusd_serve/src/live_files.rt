//! The files that a server writes during a long run.
ghost use Rattle.std.specs.Prelude.{◌≡◌, ◌++◌, [], length, reverse, All, IfErr, IfOk, IsSome, IsTrue};
ghost use Rattle.can_bus.specs.Long.{handed_entries};
ghost use Rattle.can_record_text.specs.Spelling.{end_words, entry_lines, spell};
ghost use Rattle.can_record_text.specs.inner.StoredLines.{HasFittingReply};
ghost use Rattle.canbusd_io.specs.LiveLines.{LogHas, RecordHas};
ghost use Rattle.canbusd_serve.specs.LongRuns.{AllGivenFirst, AreAllWhole, AreBegun, AreAllThere, AreThere, AreWhole, HaveLines, LogGets, LogStays, RecordGets, RecordStays};
ghost use Rattle.canbusd_serve.specs.Served.{IsOfServing};

use crate::serve_files::{drafts_of, open_failure};
use can_bus::{LongEnd, PackedRecord};
use can_frame::Names;
use can_station::Settled;
use canbusd_io::{
    Draft, LiveFaults, LiveLog, LiveRecord, ProgramError, Report, Reporter, bus_config, read_names,
};
use canbusd_options::{BusWord, Recording, ServeOptions};
use std::alloc::Global;
use std::fs::{File, OpenFile};
use std::io::Write;
use std::rt::Files;

/// The files of a bus that are written while the server runs. A file that is not wanted is `None`.
#[derive(Drop)]
pub struct LiveFiles<F: Write + OpenFile + Drop> {
    pub record: Option<LiveRecord<F>>,
    pub log: Option<LiveLog<F>>,
    /// Whether any of the files had a write error. If this is false, lines are still written to all files.
    has_fault: bool,
}

impl<F: Write + OpenFile + Drop> LiveFiles<F> {
    /// Writes the lines of these entries to the record, if a record is wanted.
    pub fn keep_record(
        &mut self,
        alloc: Global,
        entries: &PackedRecord,
    ) -> Result<(), Report<'static>>
        requires { All HasFittingReply entries.now.entries }
        ensures kept { RecordGets F.contents self.old.record (entry_lines entries.now.entries [])
            self.new.record }
        ensures stays { RecordStays self.old self.new }
        ensures same { self.new.log ≡ self.old.log }
    {
        let Some(record) = &mut self.record else {
            return Ok(());
        };
        let kept = record.keep(alloc, entries);
        if let Err(_) = &kept {
            self.has_fault = true;
        }
        kept
    }

    /// Writes the lines of the last entries and the end line to the record, if a record is wanted. Then it renames the record and
    /// its file of faults to their final names. `count` is the number of all entries.
    fn finish_record<H: Files>(
        &mut self,
        rt: &H,
        alloc: Global,
        entries: &PackedRecord,
        count: u64,
        faults: Option<&LiveFaults>,
    ) -> Result<(), Report<'static>>
        requires { All HasFittingReply entries.now.entries }
        ensures kept { RecordGets F.contents self.old.record
            (entry_lines entries.now.entries [] ++ spell (end_words count) []) self.new.record }
        ensures stays { RecordStays self.old self.new }
        ensures same { self.new.log ≡ self.old.log }
    {
        let Some(record) = &mut self.record else {
            return Ok(());
        };
        let kept = record.finish(rt, alloc, entries, count, faults);
        if let Err(_) = &kept {
            self.has_fault = true;
        }
        kept
    }

    /// Writes the lines of the tried frames among these entries to the log, if a log is wanted. Reports call the log by `name`.
    pub fn keep_log<'a>(
        &mut self,
        alloc: Global,
        name: &'a str,
        entries: &PackedRecord,
    ) -> Result<(), Report<'a>>
        ensures kept { LogGets F.contents self.old.log entries.now.entries self.new.log }
        ensures stays { LogStays self.old self.new }
        ensures same { self.new.record ≡ self.old.record }
    {
        let Some(log) = &mut self.log else {
            return Ok(());
        };
        let kept = log.keep(alloc, name, entries);
        if let Err(_) = &kept {
            self.has_fault = true;
        }
        kept
    }

    /// Returns whether all files that the options request exist and had no write error.
    fn are_there(&self, options: &ServeOptions<'_>) -> bool
        ensures { IsTrue result → AreThere options.now self.now }
    {
        if self.has_fault {
            return false;
        }
        if options.folder.is_none() {
            return true;
        }
        match options.recording {
            Recording::Live => self.log.is_some() && self.record.is_some(),
            Recording::AtEnd | Recording::Never => self.log.is_some(),
        }
    }
}

/// Creates the files of each bus that are written while the server runs, and writes the first lines of the records. The logs
/// replace the logs of an earlier run only after all files were created. If a file cannot be created, the other files are removed.
/// Returns `CannotOpen` with the folder if a file cannot be created there.
pub fn open_all<'a, H: Files<File = File>>(
    rt: &H,
    alloc: Global,
    options: &ServeOptions<'a>,
) -> Result<Vec<LiveFiles<File>>, Report<'a>>
    ensures each { IfOk result (λ files. length files.items ≡ length options.now.buses.items) }
    ensures begun { IfOk result (λ files. AreBegun ⟦<File as Write>⟧.contents files.items) }
    ensures fault { IfErr result (λ failure. IsOfServing failure.error) }
{
    let mut all = Vec::new(alloc);
    for bus in &options.buses {
        let files = match open_files(rt, alloc, options, *bus) {
            Ok(files) => files,
            Err(fault) => {
                remove_all(rt, &all);
                return Err(fault);
            }
        };
        let Ok(()) = all.push(files) else {
            return Err(Report::new(alloc, ProgramError::NoMemory));
        };
    }
    match name_logs(rt, alloc, options, &all) {
        Ok(()) => Ok(all),
        Err(fault) => {
            remove_all(rt, &all);
            Err(fault)
        }
    }
}

// Renames the log of each bus to its final name.
fn name_logs<'a, H: Files<File = File>>(
    rt: &H,
    alloc: Global,
    options: &ServeOptions<'a>,
    all: &[LiveFiles<File>],
) -> Result<(), Report<'a>>
    ensures { IfErr result (λ failure. IsOfServing failure.error) }
{
    let Some(folder) = options.folder else {
        return Ok(());
    };
    for files in all {
        let Some(log) = &files.log else {
            continue;
        };
        if let Err(error) = log.take_name(rt) {
            return Err(open_failure(alloc, folder, log.path(), &error));
        }
    }
    Ok(())
}

// Removes the files of a server that failed to start, except logs that already have their final names.
fn remove_all<H: Files<File = File>>(rt: &H, all: &[LiveFiles<File>]) {
    for files in all {
        if let Some(record) = &files.record {
            record.remove(rt);
        }
        if let Some(log) = &files.log {
            log.remove(rt);
        }
    }
}

// Returns the folder for files that are written while the server runs.
fn live_folder<'a>(options: &ServeOptions<'a>) -> Option<&'a str> {
    match options.recording {
        Recording::Live | Recording::Never => options.folder,
        Recording::AtEnd => None,
    }
}

fn open_files<'a, H: Files<File = File>>(
    rt: &H,
    alloc: Global,
    options: &ServeOptions<'a>,
    bus: BusWord<'a>,
) -> Result<LiveFiles<File>, Report<'a>>
    ensures begun { IfOk result (λ files. HaveLines ⟦<File as Write>⟧.contents [] files) }
    ensures fault { IfErr result (λ failure. IsOfServing failure.error) }
{
    let Some(folder) = live_folder(options) else {
        return Ok(LiveFiles {
            record: None,
            log: None,
            has_fault: false,
        });
    };
    let Ok(names) = read_names(alloc, bus.names) else {
        return Err(Report::new(alloc, ProgramError::NoMemory));
    };
    let drafts = drafts_of(rt, alloc, folder, &bus)?;
    let record = match options.recording {
        Recording::Live => Some(open_record(rt, alloc, options, folder, &drafts.record, &names)?),
        Recording::AtEnd | Recording::Never => None,
    };
    match open_log(rt, alloc, options, folder, &drafts.log, names) {
        Ok(log) => Ok(LiveFiles {
            record,
            log: Some(log),
            has_fault: false,
        }),
        Err(failure) => {
            if let Some(record) = &record {
                record.remove(rt);
            }
            Err(failure)
        }
    }
}

fn open_record<'a, H: Files<File = File>>(
    rt: &H,
    alloc: Global,
    options: &ServeOptions<'a>,
    folder: &'a str,
    draft: &Draft,
    names: &Names,
) -> Result<LiveRecord<File>, Report<'a>>
    ensures front { IfOk result (λ live. RecordHas ⟦<File as Write>⟧.contents live []) }
    ensures open { IfOk result (λ live. IsSome live.file.out) }
    ensures fault { IfErr result (λ failure. IsOfServing failure.error) }
{
    let config = bus_config(options.settings, names);
    LiveRecord::new(rt, alloc, draft, config, options.is_synced).map_err(|error| open_failure(
        alloc,
        folder,
        draft.draft(),
        &error,
    ))
}

fn open_log<'a, H: Files<File = File>>(
    rt: &H,
    alloc: Global,
    options: &ServeOptions<'a>,
    folder: &'a str,
    draft: &Draft,
    names: Names,
) -> Result<LiveLog<File>, Report<'a>>
    ensures none { IfOk result (λ log. LogHas ⟦<File as Write>⟧.contents log []) }
    ensures open { IfOk result (λ log. IsSome log.file.out) }
    ensures fault { IfErr result (λ failure. IsOfServing failure.error) }
{
    LiveLog::new(rt, alloc, draft, names, options.is_synced).map_err(|error| open_failure(
        alloc,
        folder,
        draft.draft(),
        &error,
    ))
}

/// Writes the missing lines to the files of each bus, and renames the record and its file of faults to their final names. Returns
/// whether all wanted files exist and had no write error. A write error ends only the file in which it occurs. The caller must show
/// that all entries taken from the history of the bus were written to the files.
pub fn finish_all<F: Write + OpenFile + Drop, H: Files, E: Write>(
    rt: &H,
    alloc: Global,
    options: &ServeOptions<'_>,
    buses: &[BusWord<'_>],
    files: &mut [LiveFiles<F>],
    faults: &[LiveFaults],
    settled: &[Settled<LongEnd>],
    reporter: &mut Reporter<'_, E>,
) -> bool
    requires each { length buses.now ≡ length settled.now }
    requires given { AllGivenFirst F.contents handed_entries files.now settled.now }
    ensures told { IsTrue reporter.old.has_reported → IsTrue reporter.new.has_reported }
    ensures whole { AreAllWhole F.contents files.new settled.now }
    ensures there { IsTrue result → AreAllThere options.now files.new settled.now }
{
    let Some((first, files)) = files.split_first_mut() else {
        return true;
    };
    let Some((bus, buses)) = buses.split_first() else {
        unreachable!()
    };
    let Some((own, settled)) = settled.split_first() else {
        unreachable!()
    };
    let (first_faults, faults) = split_first(faults);
    finish(rt, alloc, bus, first, first_faults, &own.history, reporter);
    let are_there = first.are_there(options);
    finish_all(rt, alloc, options, buses, files, faults, settled, reporter) && are_there
}

// Returns the faults of the first bus, if records are wanted, and the faults of the other buses.
fn split_first(faults: &[LiveFaults]) -> (Option<&LiveFaults>, &[LiveFaults]) {
    match faults.split_first() {
        Some((first, others)) => (Some(first), others),
        None => (None, faults),
    }
}

// Completes the files of a bus. Its record is then the text of its whole history.
fn finish<F: Write + OpenFile + Drop, H: Files, E: Write>(
    rt: &H,
    alloc: Global,
    bus: &BusWord<'_>,
    files: &mut LiveFiles<F>,
    faults: Option<&LiveFaults>,
    end: &LongEnd,
    reporter: &mut Reporter<'_, E>,
)
    requires { HaveLines F.contents (handed_entries end.now) files.now }
    ensures told { IsTrue reporter.old.has_reported → IsTrue reporter.new.has_reported }
    ensures whole { AreWhole F.contents (reverse end.now.history) files.new }
{
    let rest = end.entries();
    reporter.report(files.finish_record(rt, alloc, rest, end.len(), faults));
    reporter.report(files.keep_log(alloc, bus.first_name(), rest));
}
