//! Joins several readers into one.

use std::io;
use std::io::Read;

/// A reader that returns the bytes of several readers, one after another.
#[derive(Drop)]
pub struct Joined<R> {
    parts: Vec<R>,
    /// The index of the current reader.
    place: usize,
}

impl<R> Joined<R> {
    /// Returns the joined readers. Nothing has been read from them yet.
    pub fn new(parts: Vec<R>) -> Joined<R> {
        Joined { parts, place: 0 }
    }
}

impl<R: Read> Read for Joined<R> {
    fn read(&mut self, buf: &mut [u8]) -> io::Result<usize> {
        for place in self.place..self.parts.len() {
            self.place = place;
            let count = self.parts[place].read(buf)?;
            if count > 0 || buf.is_empty() {
                return Ok(count);
            }
        }
        Ok(0)
    }
}
