//! A writer that counts the complete lines written, so that a file can be truncated after its last complete line if a write fails.
ghost use Rattle.std.specs.Prelude.{◌≡◌};

use can_frame::count_of;
use std::io;
use std::io::{Error, Write};

/// A writer and the number of complete lines that it has accepted.
#[derive(Drop)]
pub struct WholeLines<F: Write + Drop> {
    pub inner: F,
    /// How many complete lines were written, and how many bytes they have.
    pub lines: u64,
    pub bytes: u64,
    /// The number of bytes written after the last complete line.
    pub torn: u64,
    /// The error of the last write that failed, if there was one.
    pub why: Option<Error>,
}

impl<F: Write + Drop> WholeLines<F> {
    /// Returns a writer that has accepted nothing yet.
    pub fn new(inner: F) -> WholeLines<F>
        ensures { result.inner ≡ inner }
    {
        WholeLines {
            inner,
            lines: 0,
            bytes: 0,
            torn: 0,
            why: None,
        }
    }

    // Counts these bytes, which the writer has accepted.
    fn count(&mut self, taken: &[u8])
        ensures { self.new.inner ≡ self.old.inner }
    {
        let len = taken.len() as u64;
        let ends = count_of(taken, b'\n') as u64;
        self.lines = self.lines.saturating_add(ends);
        match taken.iter().rposition(|byte| *byte == b'\n') {
            Some(place) => {
                let whole = (place as u64).saturating_add(1);
                self.bytes = self.bytes.saturating_add(self.torn).saturating_add(whole);
                self.torn = len.saturating_sub(whole);
            }
            None => self.torn = self.torn.saturating_add(len),
        }
    }
}

impl<F: Write + Drop> Write for WholeLines<F> {
    ghost contents = { λ w. F.contents w.inner };

    fn write(&mut self, buf: &[u8]) -> io::Result<usize> {
        match self.inner.write(buf) {
            Ok(taken) => {
                self.count(&buf[..taken]);
                Ok(taken)
            }
            Err(error) => {
                let kind = error.kind();
                self.why = Some(error);
                Err(Error::from(kind))
            }
        }
    }

    fn flush(&mut self) -> io::Result<()> {
        self.inner.flush()
    }
}
