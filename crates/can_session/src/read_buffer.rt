//! The buffer between a reader and the lines that are made from its bytes.
ghost use Rattle.std.specs.Prelude.{◌≡◌, ◌+◌, ◌-◌, ◌<◌, ◌≤◌, [], length, take, drop, slice_range, IfOk, OnErr};
ghost use Rattle.std.specs.Io.KnownBytes.{Keeps, IsAtEnd};
ghost use Rattle.can_session.specs.inner.Reads.{Gains};

use std::alloc::{AllocError, Global};
use std::io;
use std::io::Read;
use std::marker::Model;

/// The largest number of bytes that a buffer holds.
const ROOM: usize = 8192;

/// Bytes that were read but not yet used, in order. The buffer holds at most 8,192 bytes.
#[derive(Drop)]
pub struct ReadBuffer {
    bytes: Vec<u8>,
    start: usize,
    end: usize,
}

impl Model for ReadBuffer {
    ghost use Rattle.std.specs.Prelude.{◌≡◌, ◌≤◌, ℕ, List, slice_range, vec_len};

    ghost Value = { List ℕ };

    ghost view = { λ b. slice_range b.bytes.items b.start b.end };

    ghost invariant = { λ b. (b.start ≤ b.end) × (b.end ≤ 8192) × (vec_len b.bytes ≡ 8192) };
}

impl ReadBuffer {
    pub fn new(alloc: Global) -> Result<ReadBuffer, AllocError>
        ensures { IfOk result (λ b. b ≡ []) }
    {
        let bytes = vec![in alloc; 0; ROOM]?;
        Ok(ReadBuffer {
            bytes,
            start: 0,
            end: 0,
        })
    }

    pub fn as_slice(&self) -> &[u8]
        ensures bytes { result.now ≡ self.now }
        ensures fits { length result.now ≤ 8192 }
    {
        let (start, end) = (self.start, self.end);
        let all = self.bytes.as_slice();
        &all[start..end]
    }

    /// Removes the first `count` bytes.
    pub fn consume(&mut self, count: usize)
        requires { count ≤ length self.old }
        ensures { self.new ≡ drop count self.old }
    {
        self.start += count;
    }

    /// Keeps only the first `count` bytes.
    pub fn truncate(&mut self, count: usize)
        requires { count ≤ length self.old }
        ensures { self.new ≡ take count self.old }
    {
        self.end = self.start + count;
    }

    /// Reads up to `most` bytes in one call and returns the number of bytes read.
    pub fn read_from<R: Read>(&mut self, input: &mut R, most: usize) -> io::Result<usize>
        requires some { 0 < most }
        requires room { length self.old < 8192 }
        ensures ok { IfOk result (λ n.
            Gains self.old self.new (R.remaining input.old) (R.remaining input.new) n) }
        ensures most { IfOk result (λ n. n ≤ most) }
        ensures end { IfOk result (λ n. n ≡ 0 → IsAtEnd (R.remaining input.new)) }
        ensures same { OnErr result (self.new ≡ self.old) }
        ensures keeps { OnErr result (Keeps (R.remaining input.old) (R.remaining input.new)) }
    {
        let end = move_to_front(self.bytes.as_mut_slice(), self.start, self.end);
        self.start = 0;
        self.end = end;
        let asked = most.min(ROOM - end);
        let read = read_behind(self.bytes.as_mut_slice(), end, asked, input)?;
        self.end = end + read;
        Ok(read)
    }
}

// Moves the bytes between two indexes to the front and returns the index after the moved bytes.
fn move_to_front(bytes: &mut [u8], start: usize, end: usize) -> usize
    requires ordered { start ≤ end }
    requires within { end ≤ length bytes.old }
    ensures end { result ≡ end - start }
    ensures kept { take result bytes.new ≡ slice_range bytes.old start end }
    ensures len { length bytes.new ≡ length bytes.old }
{
    if start > 0 {
        bytes.copy_within(start..end, 0);
    }
    end - start
}

// Reads once into the free space after the first `end` bytes, and returns the number of bytes read.
fn read_behind<R: Read>(
    bytes: &mut [u8],
    end: usize,
    most: usize,
    input: &mut R,
) -> io::Result<usize>
    requires some { 0 < most }
    requires room { end + most ≤ length bytes.old }
    ensures ok { IfOk result (λ n. Gains (take end bytes.old) (take (end + n) bytes.new)
        (R.remaining input.old) (R.remaining input.new) n) }
    ensures most { IfOk result (λ n. n ≤ most) }
    ensures end { IfOk result (λ n. n ≡ 0 → IsAtEnd (R.remaining input.new)) }
    ensures same { OnErr result (take end bytes.new ≡ take end bytes.old) }
    ensures keeps { OnErr result (Keeps (R.remaining input.old) (R.remaining input.new)) }
    ensures len { length bytes.new ≡ length bytes.old }
{
    let read = input.read(&mut bytes[end..end + most])?;
    Ok(read)
}
