//! The faults of a bus in a run, which are written to a file next to the bus's record.
use crate::draft::Draft;
use crate::files::write_failure;
use crate::live_file::{LiveFile, Remains};
use crate::report::Report;
use std::alloc::{AllocError, Global};
use std::fs::File;
use std::io;
use std::io::{Error, ErrorKind, Write};
use std::rt::Files;

/// The faults of a bus in a run, which an audit can read. They consist of the script at the start and a line for each rule that was
/// added or removed later. The file is written as a draft and is renamed to its final name after the record. A run without faults
/// has no such file. If a line were missing, an audit would assign later attempts to the wrong rule. So the first write that fails
/// leaves the file empty.
#[derive(Drop)]
pub struct LiveFaults {
    draft: Draft,
    script: String,
    is_synced: bool,
    // The file, once it was created. It then begins with the script.
    file: Option<LiveFile<File>>,
    has_fault: bool,
}

impl LiveFaults {
    /// Returns the faults of a run with this script. The file is not created yet.
    pub fn new(
        draft: Draft,
        mut script: String,
        is_synced: bool,
    ) -> Result<LiveFaults, AllocError> {
        if !script.is_empty() && !script.ends_with('\n') {
            script.push('\n')?;
        }
        Ok(LiveFaults {
            draft,
            script,
            is_synced,
            file: None,
            has_fault: false,
        })
    }

    /// Returns the path of the draft.
    pub fn path(&self) -> &str {
        self.draft.draft()
    }

    /// Creates the file and writes the script.
    pub fn begin<H: Files<File = File>>(&mut self, rt: &H, alloc: Global) -> io::Result<()> {
        let file = begun(rt, alloc, &self.draft, &self.script, self.is_synced)?;
        self.file = Some(file);
        Ok(())
    }

    /// Writes the next lines. After a write error no more lines are written, and the error is reported only once.
    pub fn keep(&mut self, alloc: Global, lines: &[u8]) -> Result<(), Report<'static>> {
        if self.has_fault || lines.is_empty() {
            return Ok(());
        }
        let kept = match &mut self.file {
            Some(file) => put_lines(file, lines),
            None => Err(ErrorKind::NotFound.into()),
        };
        self.checked(alloc, kept)
    }

    /// Writes all lines of a run at its end. The file is created only if the run had faults.
    pub fn keep_all<H: Files<File = File>>(
        &mut self,
        rt: &H,
        alloc: Global,
        lines: &[u8],
    ) -> Result<(), Report<'static>> {
        if self.file.is_none() && !(self.script.is_empty() && lines.is_empty()) {
            let begun = self.begin(rt, alloc);
            self.checked(alloc, begun)?;
        }
        self.keep(alloc, lines)
    }

    // Returns the report for a failed write. After a failure no more lines are written to the file.
    fn checked(&mut self, alloc: Global, kept: io::Result<()>) -> Result<(), Report<'static>> {
        match kept {
            Ok(()) => Ok(()),
            Err(error) => {
                self.give_up();
                Err(self.failure(alloc, &error))
            }
        }
    }

    /// Notes that lines were lost. No more lines are written to the file.
    pub fn give_up(&mut self) {
        self.has_fault = true;
    }

    /// Removes the file of an earlier run. Callers do this before the record gets its final name. If the server is killed in
    /// between, no record is left next to the faults of another run.
    pub fn make_way<H: Files>(&self, rt: &H) {
        self.draft.remove_older(rt);
    }

    /// Renames the file to its final name after the record was renamed. If the run had no faults or lines were lost, the file is
    /// removed.
    pub fn finish<H: Files>(&self, rt: &H, alloc: Global) -> Result<(), Report<'static>> {
        if self.has_fault || !matches!(&self.file, Some(file) if file.has_lines()) {
            self.draft.clear(rt);
            return Ok(());
        }
        self.draft
            .take_name(rt)
            .map_err(|error| self.failure(alloc, &error))
    }

    /// Removes the draft of the file.
    pub fn remove<H: Files>(&self, rt: &H) {
        self.draft.clear(rt);
    }

    /// Returns whether no line was lost.
    pub fn is_whole(&self) -> bool {
        !self.has_fault
    }

    fn failure(&self, alloc: Global, error: &Error) -> Report<'static> {
        write_failure(alloc, self.draft.draft(), error)
    }
}

// Creates a file and writes the script into it.
fn begun<H: Files<File = File>>(
    rt: &H,
    alloc: Global,
    draft: &Draft,
    script: &str,
    is_synced: bool,
) -> io::Result<LiveFile<File>> {
    let path = String::from_str(alloc, draft.draft())?;
    let file = draft.make(rt)?;
    let mut live = LiveFile::new(alloc, path, file, is_synced, Remains::Nothing)?;
    put_lines(&mut live, script.as_bytes())?;
    Ok(live)
}

// Writes lines and flushes them. After a write error, the file is truncated to zero length and no more lines are written.
fn put_lines(file: &mut LiveFile<File>, lines: &[u8]) -> io::Result<()> {
    let Some(out) = &mut file.out else {
        return Ok(());
    };
    let put = out.write_all(lines);
    file.settle(put).map_err(|over| over.why)
}
