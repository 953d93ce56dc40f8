ghost use Rattle.std.specs.Prelude.{◌≡◌};

use can_frame::count_of;
use std::alloc::Global;
use std::io;
use std::io::{Error, Read};

/// The smallest number of recent bytes that the reader keeps. The bench never holds more of its input at once.
const KEPT: usize = 8192;

/// A reader that stores its last error and the most recent bytes of its input, so that a line can be shown.
#[derive(Drop)]
pub struct Recent<R: Read + Drop> {
    input: R,
    bytes: Vec<u8>,
    // The number of lines that ended before the kept bytes.
    lines_gone: u64,
    // Whether bytes were lost because memory was lacking.
    is_lost: bool,
    error: Option<Error>,
}

impl<R: Read + Drop> Recent<R> {
    /// Returns a reader that keeps at most 24,576 bytes. It has kept no bytes yet.
    pub fn new(alloc: Global, input: R) -> Recent<R>
        ensures { result.input ≡ input }
    {
        Recent {
            input,
            bytes: Vec::new(alloc),
            lines_gone: 0,
            is_lost: false,
            error: None,
        }
    }

    /// Returns line `number`, counted from 1, as far as it was read. The line must begin within the last 8,192 bytes.
    pub fn line(&self, number: u32) -> Option<&[u8]> {
        if self.is_lost {
            return None;
        }
        let gone = self.lines_gone.saturating_add(1);
        let place = u64::from(number).checked_sub(gone)?;
        self.bytes.split(|byte| *byte == b'\n').nth(place as usize)
    }

    /// Returns the error of the last read that failed, if any.
    pub fn error(&self) -> Option<Error> {
        self.error
    }

    // Keeps the bytes of one read. There are at most 8,192 of them.
    fn keep(&mut self, read: &[u8])
        ensures { self.new.input ≡ self.old.input }
    {
        if self.bytes.len() > 2 * KEPT {
            self.forget();
        }
        if self.bytes.extend_from_slice(read).is_err() {
            self.is_lost = true;
        }
    }

    // Drops all kept bytes except the last 8,192.
    fn forget(&mut self)
        ensures { self.new.input ≡ self.old.input }
    {
        let gone = self.bytes.len().saturating_sub(KEPT);
        let ends = count_of(&self.bytes[..gone], b'\n');
        self.lines_gone = self.lines_gone.saturating_add(ends as u64);
        self.bytes.copy_within(gone.., 0);
        self.bytes.truncate(KEPT);
    }
}

impl<R: Read + Drop> Read for Recent<R> {
    ghost remaining = { λ recent. R.remaining recent.input };

    fn read(&mut self, buf: &mut [u8]) -> io::Result<usize> {
        let most = buf.len().min(KEPT);
        match self.input.read(&mut buf[..most]) {
            Ok(read) => {
                self.keep(&buf[..read]);
                Ok(read)
            }
            Err(error) => {
                self.error = Some(error);
                Err(error)
            }
        }
    }
}
