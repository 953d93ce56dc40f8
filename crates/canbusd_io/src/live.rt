//! The record and the log of a bus, which are written while a server runs.
ghost use Rattle.std.specs.Prelude.{◌≡◌, ◌++◌, [], None, All, IfOk, IsOk, IsSome, OnErr, OnOk, reverse};
ghost use Rattle.can_logfile.specs.Log.{joined, log_lines};
ghost use Rattle.can_record_text.specs.Spelling.{end_words, entry_lines, front_lines, spell};
ghost use Rattle.can_record_text.specs.declared.version.Version.TheVariants as version;
ghost use Rattle.can_record_text.specs.inner.StoredLines.{HasFittingReply};
ghost use Rattle.canbusd_io.specs.Live.{Begins, Gets, MayGet, Stays, TakesText, whole_contents};
ghost use Rattle.canbusd_io.specs.LiveLines.{LogHas, RecordHas};

use crate::draft::Draft;
use crate::files::write_failure;
use crate::live_faults::LiveFaults;
use crate::live_file::{FileOver, LiveFile, Remains};
use crate::notes::reason_note;
use crate::program_error::ProgramError;
use crate::report::Report;
use can_bus::BusConfig;
use can_frame::Names;
use can_logfile::write_entries;
use can_record::PackedRecord;
use can_record_text::{write_block, write_end, write_front};
use std::alloc::{AllocError, Global};
use std::fs::{File, OpenFile};
use std::io;
use std::io::{Error, ErrorKind, Write};
use std::rt::Files;
use std::snapshot::Snapshot;

/// A record or log of a bus to which lines are added while a server runs. It is first written as a draft.
#[derive(Drop)]
pub struct LiveText<F: Write + OpenFile + Drop, B: Drop> {
    draft: Draft,
    /// The configuration of the bus for a record, or the names of the bus for a log. The lines are written in terms of it.
    pub bus: B,
    pub file: LiveFile<F>,
    /// The file before its first line. Only contracts see this value, and it takes no memory.
    pub start: Snapshot<LiveFile<F>>,
}

/// The record of a bus, with a line for each entry. The file is renamed to its final name once it is complete.
pub type LiveRecord<F> = LiveText<F, BusConfig>;

/// The log of a bus, with a line for each frame that was tried.
pub type LiveLog<F> = LiveText<F, Names>;

impl<F: Write + OpenFile + Drop, B: Drop> LiveText<F, B> {
    // Returns a text in an empty file. Error messages name the file by this path.
    fn begin(
        alloc: Global,
        draft: Draft,
        path: String,
        file: F,
        bus: B,
        is_synced: bool,
    ) -> io::Result<LiveText<F, B>>
        ensures bus { IfOk result (λ live. live.bus ≡ bus) }
        ensures start { IfOk result (λ live.
            Begins (whole_contents F.contents) (F.contents file) live.start.value.out) }
        ensures same { IfOk result (λ live. live.file.out ≡ live.start.value.out) }
    {
        let file = LiveFile::new(alloc, path, file, is_synced, Remains::WholeLines)?;
        Ok(LiveText {
            draft,
            bus,
            start: Snapshot::of(&file),
            file,
        })
    }

    /// Returns the path that names the file in error messages.
    pub fn path(&self) -> &str {
        &self.file.path
    }

    /// Removes the draft of the file, unless it was already renamed to its final name.
    pub fn remove<H: Files>(&self, rt: &H) {
        self.draft.clear(rt);
    }
}

impl<B: Drop> LiveText<File, B> {
    // Creates the file for a text that has no lines yet.
    fn make<H: Files<File = File>>(
        rt: &H,
        alloc: Global,
        draft: &Draft,
        path: String,
        bus: B,
        is_synced: bool,
    ) -> io::Result<LiveText<File, B>>
        ensures bus { IfOk result (λ live. live.bus ≡ bus) }
        ensures open { IfOk result (λ live. IsSome live.file.out) }
        ensures same { IfOk result (λ live. live.file.out ≡ live.start.value.out) }
    {
        let own = draft.copy(alloc)?;
        let file = draft.make(rt)?;
        LiveText::begin(alloc, own, path, file, bus, is_synced).map_err(|error| removed(
            rt, draft, error,
        ))
    }
}

impl LiveText<File, BusConfig> {
    /// Creates the record of a bus with this configuration and writes its first two lines.
    pub fn new<H: Files<File = File>>(
        rt: &H,
        alloc: Global,
        draft: &Draft,
        config: BusConfig,
        is_synced: bool,
    ) -> io::Result<LiveRecord<File>>
        ensures config { IfOk result (λ live. live.bus ≡ config) }
        ensures front { IfOk result (λ live. RecordHas ⟦<File as Write>⟧.contents live []) }
        ensures open { IfOk result (λ live. IsSome live.file.out) }
    {
        let path = String::from_str(alloc, draft.draft())?;
        let live = LiveText::make(rt, alloc, draft, path, config, is_synced)?;
        live.with_front(alloc)
            .map_err(|error| removed(rt, draft, error))
    }
}

impl LiveText<File, Names> {
    /// Creates the log of a bus with these names. The log has no lines yet.
    pub fn new<H: Files<File = File>>(
        rt: &H,
        alloc: Global,
        draft: &Draft,
        names: Names,
        is_synced: bool,
    ) -> io::Result<LiveLog<File>>
        ensures names { IfOk result (λ log. log.bus ≡ names) }
        ensures none { IfOk result (λ log. LogHas ⟦<File as Write>⟧.contents log []) }
        ensures open { IfOk result (λ log. IsSome log.file.out) }
    {
        let path = String::from_str(alloc, draft.path())?;
        LiveText::make(rt, alloc, draft, path, names, is_synced)
    }
}

impl<F: Write + OpenFile + Drop> LiveText<F, BusConfig> {
    // Writes the first two lines of the record and returns the record.
    fn with_front(mut self, alloc: Global) -> io::Result<LiveText<F, BusConfig>>
        ensures lines { IfOk result (λ live. Gets (whole_contents F.contents) self.file.out
            live.file.out (front_lines version.Four self.bus [])) }
        ensures config { IfOk result (λ live. live.bus ≡ self.bus) }
        ensures start { IfOk result (λ live. live.start ≡ self.start) }
    {
        let Some(out) = &mut self.file.out else {
            return Ok(self);
        };
        let put = write_front(alloc, self.bus, out);
        match self.file.settle(put) {
            Ok(()) => Ok(self),
            Err(over) => Err(over.why),
        }
    }

    /// Writes the lines of the next entries. After a write error no more lines are written, and the error is reported only once.
    pub fn keep(&mut self, alloc: Global, entries: &PackedRecord) -> Result<(), Report<'static>>
        requires { All HasFittingReply entries.now.entries }
        ensures lines { TakesText (whole_contents F.contents) self.old.file.out self.new.file.out
            (entry_lines entries.now.entries []) result }
        ensures once { self.old.file.out ≡ None → IsOk result }
        ensures config { self.new.bus ≡ self.old.bus }
        ensures start { self.new.start ≡ self.old.start }
    {
        let Some(out) = &mut self.file.out else {
            return Ok(());
        };
        let put = write_block(alloc, entries, out).map_err(|torn| torn.why);
        self.settle(alloc, put)
    }

    /// Writes the lines of the last entries and the end line, which says that there are `count` entries. Then it renames the file
    /// and the file of the run's faults to their final names. If the file had a write error, neither is renamed.
    pub fn finish<H: Files>(
        &mut self,
        rt: &H,
        alloc: Global,
        entries: &PackedRecord,
        count: u64,
        faults: Option<&LiveFaults>,
    ) -> Result<(), Report<'static>>
        requires { All HasFittingReply entries.now.entries }
        ensures lines { MayGet (whole_contents F.contents) self.old.file.out self.new.file.out
            (entry_lines entries.now.entries [] ++ spell (end_words count) []) }
        ensures gets { OnOk result
            (Gets (whole_contents F.contents) self.old.file.out self.new.file.out
            (entry_lines entries.now.entries [] ++ spell (end_words count) [])) }
        ensures once { self.old.file.out ≡ None → IsOk result }
        ensures config { self.new.bus ≡ self.old.bus }
        ensures start { self.new.start ≡ self.old.start }
    {
        self.end(alloc, entries, count)?;
        if self.file.out.is_none() {
            return Ok(());
        }
        self.name_both(rt, alloc, faults)
    }

    // Writes the lines of the last entries and the end line.
    fn end(
        &mut self,
        alloc: Global,
        entries: &PackedRecord,
        count: u64,
    ) -> Result<(), Report<'static>>
        requires { All HasFittingReply entries.now.entries }
        ensures lines { TakesText (whole_contents F.contents) self.old.file.out self.new.file.out
            (entry_lines entries.now.entries [] ++ spell (end_words count) []) result }
        ensures once { self.old.file.out ≡ None → IsOk result }
        ensures config { self.new.bus ≡ self.old.bus }
        ensures start { self.new.start ≡ self.old.start }
    {
        self.keep(alloc, entries)?;
        let Some(out) = &mut self.file.out else {
            return Ok(());
        };
        let put = write_end(alloc, count, out);
        self.settle(alloc, put)
    }

    // Renames the file and the file of the run's faults to their final names.
    fn name_both<H: Files>(
        &self,
        rt: &H,
        alloc: Global,
        faults: Option<&LiveFaults>,
    ) -> Result<(), Report<'static>>
        requires { IsSome self.now.file.out }
    {
        if let Some(faults) = faults {
            faults.make_way(rt);
        }
        self.draft
            .take_name(rt)
            .map_err(|error| write_failure(alloc, self.draft.path(), &error))?;
        match faults {
            Some(faults) => faults.finish(rt, alloc),
            None => Ok(()),
        }
    }

    fn settle(&mut self, alloc: Global, put: io::Result<()>) -> Result<(), Report<'static>>
        ensures put { OnOk result (IsOk put) }
        ensures stays { OnOk result
            (Stays (whole_contents F.contents) self.old.file.out self.new.file.out) }
        ensures over { OnErr result (self.new.file.out ≡ None) }
        ensures config { self.new.bus ≡ self.old.bus }
        ensures start { self.new.start ≡ self.old.start }
    {
        match self.file.settle(put) {
            Ok(()) => Ok(()),
            Err(over) => Err(record_failure(alloc, &self.file.path, &over)),
        }
    }
}

fn record_failure(alloc: Global, path: &str, over: &FileOver) -> Report<'static> {
    let failure = write_failure(alloc, path, &over.why);
    match entries_note(alloc, over.whole_lines.saturating_sub(2)) {
        Ok(note) => failure.and(&note),
        Err(_) => failure,
    }
}

fn entries_note(alloc: Global, entries: u64) -> Result<String, AllocError> {
    format!(in alloc; "  it has the first {entries} entries, and no end\n")
}

// Removes the file of a text that could not be begun, and returns the error.
fn removed<H: Files>(rt: &H, draft: &Draft, error: Error) -> Error
    ensures { result ≡ error }
{
    draft.clear(rt);
    error
}

impl<F: Write + OpenFile + Drop> LiveText<F, Names> {
    /// Renames the file to its final name. It replaces the log of an earlier run.
    pub fn take_name<H: Files>(&self, rt: &H) -> io::Result<()> {
        self.draft.take_name(rt)
    }

    /// Writes the lines of the next entries. After a write error no more lines are written, and the error is reported only once.
    /// The report calls the log by `name`.
    pub fn keep<'a>(
        &mut self,
        alloc: Global,
        name: &'a str,
        entries: &PackedRecord,
    ) -> Result<(), Report<'a>>
        ensures lines { TakesText (whole_contents F.contents) self.old.file.out self.new.file.out
            (joined (log_lines self.old.bus (reverse entries.now.entries))) result }
        ensures once { self.old.file.out ≡ None → IsOk result }
        ensures names { self.new.bus ≡ self.old.bus }
        ensures start { self.new.start ≡ self.old.start }
    {
        let Some(out) = &mut self.file.out else {
            return Ok(());
        };
        let put = match write_entries(&self.bus, entries, out) {
            Ok(_) => Ok(()),
            Err(_) => Err(ErrorKind::WriteZero.into()),
        };
        match self.file.settle(put) {
            Ok(()) => Ok(()),
            Err(over) => Err(log_failure(alloc, name, &self.file.path, &over)),
        }
    }
}

fn log_failure<'a>(alloc: Global, name: &'a str, path: &str, over: &FileOver) -> Report<'a> {
    let whole_lines = over.whole_lines;
    let notes = reason_note(alloc, path, &over.why);
    Report::with(alloc, ProgramError::Log { name, whole_lines }, notes)
}
