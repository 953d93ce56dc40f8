//! Writes the entries of a long run to the files of its bus while the server runs.
ghost use Rattle.std.specs.Prelude.{◌≡◌, ◌++◌, [], All};
ghost use Rattle.can_server.specs.Keeping.{AreLegalLast};
ghost use Rattle.can_record_text.specs.inner.StoredLines.{HasFittingReply};
ghost use Rattle.can_record_text.specs.Spelling.{entry_lines};
ghost use Rattle.canbusd_serve.specs.LongRuns.{HaveLines, LogGets, LogStays, RecordGets, RecordStays};

use crate::host::Host;
use crate::live_files::LiveFiles;
use can_bus::PackedRecord;
use can_server::{Given, Keeper};
use can_station::Block;
use canbusd_io::LiveFaults;
use std::fs::OpenFile;
use std::io::Write;
use std::marker::Model;
use std::sync::Wait;
use std::time::Instant;
use std::{io, time};

/// The time in seconds after which a slow write is reported, because the bus waits for the file.
const PATIENCE: u64 = 1;

/// The minimum time in seconds between two reports of slow writes.
const PAUSE: u64 = 60;

/// The files of a bus. Each file without a write error contains the lines of all entries that it was given. Contracts see these
/// entries.
#[derive(Drop)]
pub struct KeptFiles<F: Write + OpenFile + Drop> {
    files: LiveFiles<F>,
    given: Given,
}

impl<F: Write + OpenFile + Drop> Model for KeptFiles<F> {
    ghost use Rattle.std.specs.Prelude.{List};
    ghost use Rattle.can_event.specs.declared.entry.Entry.{Entry};
    ghost use Rattle.canbusd_serve.specs.LongRuns.{HaveLines};

    ghost Value = { List Entry };

    ghost view = { λ k. k.given };

    ghost invariant = { λ k. HaveLines F.contents k.given k.files };
}

impl<F: Write + OpenFile + Drop> KeptFiles<F> {
    /// Returns files that have not been given any entries yet.
    pub fn new(files: LiveFiles<F>) -> KeptFiles<F>
        requires { HaveLines F.contents [] files }
        ensures { result ≡ [] }
    {
        KeptFiles {
            files,
            given: Given::new(),
        }
    }

    /// The files.
    pub fn into_files(self) -> LiveFiles<F>
        ensures { HaveLines F.contents self result }
    {
        let KeptFiles { files, .. } = self;
        files
    }
}

/// Writes the entries of a bus to the files of the bus.
#[derive(Drop)]
pub struct FileKeeper<'o, 'h, 'a, 'l, F: Write + OpenFile + Drop, H, E: Write> {
    pub host: &'o Host<'h, 'a, 'l, H, E>,
    pub bus: usize,
    pub kept: KeptFiles<F>,
    /// The faults of the bus, if the record of the bus is wanted.
    pub faults: Option<LiveFaults>,
    /// The time of the last report of a slow write.
    pub reported: Option<Instant>,
}

impl<F: Write + OpenFile + Drop, H: Wait + time::Clock, E: Write> Keeper
    for FileKeeper<'_, '_, '_, '_, F, H, E> {
    ghost given = { λ keeper. keeper.kept };

    // The lines about rules are written first. So if the record is read in the meantime, it contains no entry that comes after
    // rules that were not yet written.
    fn keep(&mut self, block: &Block) {
        keep_faults(self.host, &mut self.faults, &block.changes);
        keep_entries(
            self.host,
            self.bus,
            &mut self.kept,
            &block.entries,
            &mut self.reported,
        );
    }
}

// Writes entries to the record and the log of a bus.
fn keep_entries<F: Write + OpenFile + Drop, H: Wait + time::Clock, E: Write>(
    host: &Host<'_, '_, '_, H, E>,
    bus: usize,
    kept: &mut KeptFiles<F>,
    entries: &PackedRecord,
    reported: &mut Option<Instant>,
)
    requires { AreLegalLast entries.now.entries }
    ensures { kept.new ≡ kept.old ++ entries.now.entries }
{
    if entries.len() == 0 {
        return;
    }
    keep_record(host, bus, &mut kept.files, entries, reported);
    keep_log(host, bus, &mut kept.files, entries, reported);
    kept.given.note(entries);
}

// Writes the lines about the rules of a bus, if these are wanted.
fn keep_faults<H: Wait + time::Clock, E: Write>(
    host: &Host<'_, '_, '_, H, E>,
    faults: &mut Option<LiveFaults>,
    lines: &[u8],
) {
    if let Some(faults) = faults {
        host.report(faults.keep(host.alloc, lines));
    }
}

// Writes the lines of entries to the record of a bus.
fn keep_record<F: Write + OpenFile + Drop, H: Wait + time::Clock, E: Write>(
    host: &Host<'_, '_, '_, H, E>,
    bus: usize,
    files: &mut LiveFiles<F>,
    entries: &PackedRecord,
    reported: &mut Option<Instant>,
)
    requires { All HasFittingReply entries.now.entries }
    ensures kept { RecordGets F.contents files.old.record (entry_lines entries.now.entries [])
        files.new.record }
    ensures stays { RecordStays files.old files.new }
    ensures same { files.new.log ≡ files.old.log }
{
    let begun = Instant::now(host.rt);
    let kept = files.keep_record(host.alloc, entries);
    if is_late(host.rt, begun, reported) {
        if let Some(record) = &files.record {
            host.note_wait(bus, record.path());
        }
    }
    host.report(kept);
}

// Writes the lines of the tried frames among the entries to the log of a bus.
fn keep_log<F: Write + OpenFile + Drop, H: Wait + time::Clock, E: Write>(
    host: &Host<'_, '_, '_, H, E>,
    bus: usize,
    files: &mut LiveFiles<F>,
    entries: &PackedRecord,
    reported: &mut Option<Instant>,
)
    ensures kept { LogGets F.contents files.old.log entries.now.entries files.new.log }
    ensures stays { LogStays files.old files.new }
    ensures same { files.new.record ≡ files.old.record }
{
    let begun = Instant::now(host.rt);
    let name = host.name_of(bus);
    let kept = files.keep_log(host.alloc, name, entries);
    if is_late(host.rt, begun, reported) {
        if let Some(log) = &files.log {
            host.note_wait(bus, log.path());
        }
    }
    host.report(kept);
}

// Returns whether a write that began at `begun` was slow and has to be reported. If so, the time of the last report is set to the
// current time.
fn is_late<R: time::Clock>(
    rt: &R,
    begun: io::Result<Instant>,
    reported: &mut Option<Instant>,
) -> bool {
    let (Ok(begun), Ok(now)) = (begun, Instant::now(rt)) else {
        return false;
    };
    if now.duration_since(begun).as_secs() < PATIENCE {
        return false;
    }
    if let Some(last) = *reported {
        if now.duration_since(last).as_secs() < PAUSE {
            return false;
        }
    }
    *reported = Some(now);
    true
}
