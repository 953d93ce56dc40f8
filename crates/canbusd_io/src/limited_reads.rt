//! Readers with a limited number of reads, so that no input is read indefinitely.

use can_session::lines::LONGEST_INPUT;
use std::alloc::Global;
use std::io;
use std::io::{Error, ErrorKind, Read};

/// The largest number of reads of a file. The last read finds the end of the file.
pub(crate) const MOST_READS: u32 = LONGEST_INPUT as u32;

/// A reader that can be read at most `most` times. One more read is an error, and the error message contains this number.
#[derive(Drop)]
pub struct LimitedReads<R> {
    reader: R,
    alloc: Global,
    most: u32,
    made: u32,
}

impl<R> LimitedReads<R> {
    /// Returns a reader that has not been read yet.
    pub fn new(alloc: Global, reader: R, most: u32) -> LimitedReads<R> {
        LimitedReads {
            reader,
            alloc,
            most,
            made: 0,
        }
    }
}

impl<R: Read> Read for LimitedReads<R> {
    fn read(&mut self, buf: &mut [u8]) -> io::Result<usize> {
        if self.made >= self.most {
            return Err(too_many(self.alloc, self.most));
        }
        self.made += 1;
        self.reader.read(buf)
    }
}

// Returns the error for a read beyond the limit.
fn too_many(alloc: Global, most: u32) -> Error {
    match format!(in alloc; "it is not read in {most} reads") {
        Ok(words) => Error::other(&words),
        Err(_) => Error::from(ErrorKind::OutOfMemory),
    }
}
