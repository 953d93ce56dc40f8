//! Files to which lines are added while a server runs.
ghost use Rattle.std.specs.Prelude.{◌≡◌, None, IfOk, IsOk, OnErr, OnOk};
ghost use Rattle.canbusd_io.specs.Live.{Begins, Stays, whole_contents};

use crate::whole_lines::WholeLines;
use std::alloc::Global;
use std::fs::OpenFile;
use std::io;
use std::io::{BufWriter, Error, Write};

/// The largest number of bytes in one write.
const BLOCK: usize = 65_536;

/// The part of a file that is kept after a write error.
#[derive(Debug, Clone, Copy, PartialEq, Eq)]
pub enum Remains {
    /// The complete lines are kept.
    WholeLines,
    /// Nothing is kept, because the file would be misleading if a line were missing.
    Nothing,
}

/// A file to which lines are added while a server runs. After its first write error, the file is truncated to the part that is
/// kept, and no more lines are written.
#[derive(Drop)]
pub struct LiveFile<F: Write + OpenFile + Drop> {
    pub path: String,
    remains: Remains,
    /// Whether each flush waits until all lines are on the disk.
    pub is_synced: bool,
    /// The writer for the file's lines, or `None` after a write error.
    pub out: Option<BufWriter<WholeLines<F>>>,
}

/// The error that ended a file, and how many complete lines the file contains.
#[derive(Drop)]
pub struct FileOver {
    pub whole_lines: u64,
    pub why: Error,
}

impl<F: Write + OpenFile + Drop> LiveFile<F> {
    /// Returns a file without lines.
    pub fn new(
        alloc: Global,
        path: String,
        file: F,
        is_synced: bool,
        remains: Remains,
    ) -> io::Result<LiveFile<F>>
        ensures { IfOk result (λ live.
            Begins (whole_contents F.contents) (F.contents file) live.out) }
    {
        let out = BufWriter::with_capacity(alloc, BLOCK, WholeLines::new(file))?;
        Ok(LiveFile {
            path,
            remains,
            is_synced,
            out: Some(out),
        })
    }

    /// Returns whether the file has lines and had no write error.
    pub fn has_lines(&self) -> bool {
        matches!(&self.out, Some(out) if out.get_ref().lines > 0)
    }

    /// Flushes the lines after a write with the outcome `put`. If the write or the flush failed, no more lines are written.
    pub fn settle(&mut self, put: io::Result<()>) -> Result<(), FileOver>
        ensures put { OnOk result (IsOk put) }
        ensures stays { OnOk result (Stays (whole_contents F.contents) self.old.out self.new.out) }
        ensures over { OnErr result (self.new.out ≡ None) }
    {
        match put {
            Ok(()) => match self.hand_over() {
                Ok(()) => Ok(()),
                Err(error) => Err(self.end(error)),
            },
            Err(error) => Err(self.end(error)),
        }
    }

    fn hand_over(&mut self) -> io::Result<()>
        ensures { Stays (whole_contents F.contents) self.old.out self.new.out }
    {
        self.flush()?;
        if self.is_synced { self.sync() } else { Ok(()) }
    }

    fn flush(&mut self) -> io::Result<()>
        ensures { Stays (whole_contents F.contents) self.old.out self.new.out }
    {
        match &mut self.out {
            Some(out) => out.flush(),
            None => Ok(()),
        }
    }

    // Waits until all lines are on the disk.
    fn sync(&self) -> io::Result<()> {
        match &self.out {
            Some(out) => out.get_ref().inner.sync_data(),
            None => Ok(()),
        }
    }

    // Ends the file. The reason is the error of the last failed write, if there was one, and otherwise `error`.
    fn end(&mut self, error: Error) -> FileOver
        ensures { self.new.out ≡ None }
    {
        let Some(out) = self.out.take() else {
            return FileOver {
                whole_lines: 0,
                why: error,
            };
        };
        let (whole, _) = out.into_parts();
        let kept = match self.remains {
            Remains::WholeLines => whole.bytes,
            Remains::Nothing => 0,
        };
        let _ = whole.inner.set_len(kept);
        FileOver {
            whole_lines: whole.lines,
            why: whole.why.unwrap_or(error),
        }
    }
}
