//! The records and logs that a server writes.
ghost use Rattle.std.specs.Prelude.{IfErr, IsTrue};
ghost use Rattle.canbusd_serve.specs.Served.{IsOfServing};

use crate::lock_file::LockFile;
use can_bus::Record;
use can_station::Settled;
use canbusd_io::{
    Draft, LiveFaults, ProgramError, Report, Reporter, Shown, reason_note, save_log_at,
    save_record_at,
};
use canbusd_options::{BusWord, Recording, ServeOptions};
use std::alloc::{AllocError, Global};
use std::fs;
use std::fs::File;
use std::io::{Error, ErrorKind, Write};
use std::rt::Files;

/// The largest number of bytes in the first two lines of a record. A record of this size or less has no entries and no end line.
const MOST_OF_FRONT: u64 = 61;

/// Locks the folder for this server with a lock file in the folder. Returns `CannotOpen` if another server has locked it. Returns
/// `None` if no file can be created there or the file system does not support locks.
pub fn lock_folder<'a, H: Files<File = File>>(
    rt: &H,
    alloc: Global,
    folder: &'a str,
) -> Result<Option<LockFile>, Report<'a>>
    ensures { IfErr result (λ failure. IsOfServing failure.error) }
{
    let Ok(path) = format!(in alloc; "{folder}/.canbusd.lock") else {
        return Err(Report::new(alloc, ProgramError::NoMemory));
    };
    match LockFile::take(rt, alloc, &path) {
        Ok(lock) => Ok(Some(lock)),
        Err(error) if error.kind() == ErrorKind::AddrInUse => {
            let error = Error::new(ErrorKind::WouldBlock, "another server writes to it");
            Err(open_failure(alloc, folder, folder, &error))
        }
        Err(error) if error.kind() == ErrorKind::InvalidInput => {
            Err(open_failure(alloc, folder, folder, &error))
        }
        Err(_) => Ok(None),
    }
}

/// Checks that the files that the options request can be created in the folder: the record of each bus with its file of faults, and
/// a log that is written while the server runs. The folder is left unchanged. Returns `CannotOpen` with the folder if a file cannot
/// be created there.
pub fn look_at_folder<'a, H: Files<File = File>>(
    rt: &H,
    alloc: Global,
    folder: &'a str,
    options: &ServeOptions<'a>,
) -> Result<(), Report<'a>>
    ensures { IfErr result (λ failure. IsOfServing failure.error) }
{
    for bus in &options.buses {
        let Drafts {
            record,
            log,
            faults,
        } = drafts_of(rt, alloc, folder, bus)?;
        if !matches!(options.recording, Recording::Never) {
            look_at_record(rt, alloc, folder, &record)?;
            look_at_record(rt, alloc, folder, &faults)?;
        }
        if !matches!(options.recording, Recording::AtEnd) {
            if let Err(error) = log.look(rt) {
                return Err(open_failure(alloc, folder, log.draft(), &error));
            }
        }
    }
    Ok(())
}

// Checks whether a file that an audit reads can be created in the folder, and whether a draft can be set aside there.
fn look_at_record<'a, H: Files<File = File>>(
    rt: &H,
    alloc: Global,
    folder: &'a str,
    draft: &Draft,
) -> Result<(), Report<'a>>
    ensures { IfErr result (λ failure. IsOfServing failure.error) }
{
    if let Err(error) = draft.look_for_record(rt) {
        return Err(open_failure(alloc, folder, draft.draft(), &error));
    }
    match draft.look_aside(rt) {
        Ok(()) => Ok(()),
        Err(error) => Err(open_failure(alloc, folder, draft.aside(), &error)),
    }
}

/// Sets aside the records and files of faults that interrupted runs of these buses left behind, and reports each one. A record that
/// contains only its first lines is removed: it is from a server that failed to start, and must not replace a record that was set
/// aside.
pub fn set_all_aside<'a, H: Files<File = File>, E: Write>(
    rt: &H,
    alloc: Global,
    folder: &'a str,
    buses: &[BusWord<'_>],
    errors: &mut E,
) -> Result<(), Report<'a>>
    ensures { IfErr result (λ failure. IsOfServing failure.error) }
{
    for bus in buses {
        let Drafts { record, faults, .. } = drafts_of(rt, alloc, folder, bus)?;
        if record.has_more_than(rt, MOST_OF_FRONT) {
            let Ok(note) = aside_note(alloc, &record) else {
                return Err(Report::new(alloc, ProgramError::NoMemory));
            };
            set_aside(rt, alloc, folder, &record, &faults)?;
            let _ = errors.write_all(note.as_bytes());
        }
        record.clear(rt);
        faults.clear(rt);
    }
    Ok(())
}

// Sets aside an incomplete record and then its file of faults. A file of faults that was set aside earlier is removed first. If the
// server is killed in between, no record is left next to the faults of another run. If the file of faults cannot be set aside, the
// record is moved back, so that the next start finds both files.
fn set_aside<'a, H: Files<File = File>>(
    rt: &H,
    alloc: Global,
    folder: &'a str,
    record: &Draft,
    faults: &Draft,
) -> Result<(), Report<'a>>
    ensures { IfErr result (λ failure. IsOfServing failure.error) }
{
    if let Err(error) = faults.clear_aside(rt) {
        return Err(open_failure(alloc, folder, faults.aside(), &error));
    }
    if let Err(error) = record.set_aside(rt) {
        return Err(open_failure(alloc, folder, record.aside(), &error));
    }
    if !faults.has_more_than(rt, 0) {
        return Ok(());
    }
    match faults.set_aside(rt) {
        Ok(()) => Ok(()),
        Err(error) => {
            record.put_back(rt);
            Err(open_failure(alloc, folder, faults.aside(), &error))
        }
    }
}

fn aside_note(alloc: Global, record: &Draft) -> Result<String, AllocError> {
    let (draft, aside) = (Shown::whole(record.draft()), Shown::whole(record.aside()));
    format!(in alloc; "note: {draft} of a run that was cut off is {aside} now\n")
}

/// The record, the log and the file of faults that will be written for a bus.
#[derive(Drop)]
pub struct Drafts {
    pub record: Draft,
    pub log: Draft,
    pub faults: Draft,
}

/// Returns the files of a bus in a folder. Nothing is written.
pub fn drafts_of<'a, H: Files>(
    rt: &H,
    alloc: Global,
    folder: &str,
    bus: &BusWord<'_>,
) -> Result<Drafts, Report<'a>>
    ensures { IfErr result (λ failure. IsOfServing failure.error) }
{
    let name = bus.first_name();
    let record = Draft::new(rt, alloc, folder, name, "rec");
    let log = Draft::new(rt, alloc, folder, name, "log");
    let faults = Draft::new(rt, alloc, folder, name, "rec.faults");
    match (record, log, faults) {
        (Ok(record), Ok(log), Ok(faults)) => Ok(Drafts {
            record,
            log,
            faults,
        }),
        _ => Err(Report::new(alloc, ProgramError::NoMemory)),
    }
}

/// Returns the report for a folder in which a file cannot be created.
pub fn open_failure<'a>(alloc: Global, folder: &'a str, path: &str, error: &Error) -> Report<'a>
    ensures { IsOfServing result.error }
{
    Report::with(
        alloc,
        ProgramError::CannotOpen(folder),
        reason_note(alloc, path, error),
    )
}

/// Writes the record and the log of each bus into a folder. Then it renames the file of faults, which was written earlier, to its
/// final name. An error ends only the file in which it occurs.
pub fn save_all<H: Files, E: Write>(
    rt: &H,
    alloc: Global,
    folder: &str,
    buses: &[BusWord<'_>],
    settled: &[Settled],
    faults: &[LiveFaults],
    reporter: &mut Reporter<'_, E>,
)
    ensures { IsTrue reporter.old.has_reported → IsTrue reporter.new.has_reported }
{
    let mut faults = faults.iter();
    for (bus, settled) in buses.iter().zip(settled) {
        let own = faults.next();
        save_bus(rt, alloc, folder, bus, &settled.history, own, reporter);
    }
}

fn save_bus<H: Files, E: Write>(
    rt: &H,
    alloc: Global,
    folder: &str,
    bus: &BusWord<'_>,
    record: &Record,
    faults: Option<&LiveFaults>,
    reporter: &mut Reporter<'_, E>,
)
    ensures { IsTrue reporter.old.has_reported → IsTrue reporter.new.has_reported }
{
    match drafts_of(rt, alloc, folder, bus) {
        Ok(
            Drafts {
                record: rec,
                log,
                ..
            },
        ) => {
            rec.clear(rt);
            let saved = save_record_at(rt, alloc, rec.path(), rec.draft(), record);
            if let (Ok(()), Some(faults)) = (&saved, faults) {
                faults.make_way(rt);
            }
            let kept = rec.keep(rt, alloc, saved);
            let named = match faults {
                Some(faults) if kept.is_ok() => faults.finish(rt, alloc),
                Some(faults) => {
                    faults.remove(rt);
                    Ok(())
                }
                None => Ok(()),
            };
            reporter.report(kept);
            reporter.report(named);
            log.clear(rt);
            let saved = save_log_at(rt, alloc, log.path(), log.draft(), *bus, record);
            reporter.report(log.keep_part(rt, alloc, saved));
        }
        Err(failure) => reporter.report(Err(failure)),
    }
}
