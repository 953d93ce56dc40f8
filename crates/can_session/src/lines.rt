ghost use Rattle.std.specs.Prelude.{◌≡◌, ◌≤◌, ◌<◌, ◌+◌, ◌⊎◌, true, false, length, take, drop, position, Some, None, IfOk, IfErr, IfSome, OnOk, OnErr, MatchBool};
ghost use Rattle.std.specs.List.{list_any};
ghost use Rattle.std.specs.Io.KnownBytes.{IsAtEnd};
ghost use Rattle.can_session.specs.Lines.{is_lf, unread, after_line, after_last, ComesNext, Fails, Fills, Halts, IsOver, IsWithinLimits, Repeats, Stops, TakesInputLine};
ghost use Rattle.can_session.specs.inner.Looks.{Shows};

use crate::byte_search::place_of;
use crate::read_buffer::ReadBuffer;
use std::alloc::{AllocError, Global};
use std::io::Read;
use std::marker::Model;

/// The largest number of bytes in a line, without its LF.
pub const LONGEST_LINE: usize = 4096;

/// The largest number of bytes in an input, and the largest number of reads from it.
pub const LONGEST_INPUT: usize = 16_777_216;

/// The reason why there is no next line.
#[derive(Debug, Clone, Copy, PartialEq, Eq)]
pub enum InputFault {
    /// The line is longer than 4,096 bytes.
    LineTooLong,
    /// The input has more bytes or requires more reads than allowed.
    TooLong,
    /// The reader failed.
    Read,
}

/// Reads an input line by line. Each line ends with LF, except that the last line may lack it. At most 8,192 bytes of the input are
/// kept, and each byte is examined once.
#[derive(Drop)]
pub struct Lines<R: Read + Drop> {
    input: R,
    // The bytes held in memory. They begin with the current line and its LF, if it has one.
    buffer: ReadBuffer,
    // The length of the current line without its LF (`line`) and with its LF (`width`).
    line: usize,
    width: usize,
    given: usize,
    // The number of reads that returned bytes.
    reads: usize,
    is_over: bool,
    fault: Option<InputFault>,
}

impl<R: Read + Drop> Model for Lines<R> {
    ghost use Rattle.std.specs.Prelude.{◌≤◌, length, take, drop};
    ghost use Rattle.can_session.specs.Lines.{Input, IsWithinLimits};

    ghost Value = { Input };

    ghost view = { λ l. record {
      line = take l.line l.buffer;
      given = l.given;
      held = drop l.width l.buffer;
      coming = R.remaining l.input;
      reads = l.reads;
      ended = l.is_over;
      fault = l.fault;
    } };

    ghost invariant = { λ l.
        (l.line ≤ l.width) × (l.width ≤ length l.buffer)
        × IsWithinLimits (record {
          line = take l.line l.buffer;
          given = l.given;
          held = drop l.width l.buffer;
          coming = R.remaining l.input;
          reads = l.reads;
          ended = l.is_over;
          fault = l.fault;
        }) };
}

impl<R: Read + Drop> Lines<R> {
    /// Returns a reader for the lines of an input from which nothing has been read. It uses 8,192 bytes of memory.
    pub fn new(alloc: Global, input: R) -> Result<Lines<R>, AllocError>
        ensures { IfOk result (λ l. l ≡ unread (R.remaining input)) }
    {
        let buffer = ReadBuffer::new(alloc)?;
        Ok(Lines {
            input,
            buffer,
            line: 0,
            width: 0,
            given: 0,
            reads: 0,
            is_over: false,
            fault: None,
        })
    }

    /// Returns the current line without its LF. After `next_line` has returned true, this is the line that it found.
    pub fn line(&self) -> &[u8]
        ensures { result.now ≡ self.now.line }
    {
        &self.buffer.as_slice()[..self.line]
    }

    /// Moves to the next line if that line was already read completely. Returns whether it moved. Nothing is read.
    pub fn take_held(&mut self) -> bool
        ensures took { MatchBool result (TakesInputLine self.old self.new) (self.new ≡ self.old) }
        ensures fine { result ≡ true → self.old.fault ≡ None }
        ensures within { IsWithinLimits self.new }
    {
        if self.fault().is_some() || self.is_over() {
            return false;
        }
        match find_line(self.held(), 0) {
            LineSearch::Line(len) => {
                self.give(len, len + 1);
                true
            }
            LineSearch::Long | LineSearch::Begun => false,
        }
    }

    /// Moves to the next line, which may have at most 4,096 bytes. Returns false at the end of the input. It reads only until it
    /// has a complete line, so all complete lines before a fault have been returned. Faults: `LineTooLong` at the 4,097th byte of a
    /// line, `TooLong` at the byte or the read past the limit, and `Read` if the reader failed. After a fault nothing more is read,
    /// and each call returns the same fault.
    pub fn next_line(&mut self) -> Result<bool, InputFault>
        ensures ok { IfOk result (λ found. ComesNext found self.old self.new) }
        ensures fine { OnOk result (self.old.fault ≡ None) }
        ensures err { IfErr result (λ fault.
            Stops fault self.old self.new ⊎ Repeats fault self.old self.new) }
        ensures within { IsWithinLimits self.new }
    {
        if let Some(fault) = self.fault() {
            return Err(fault);
        }
        if self.is_over() {
            return Ok(false);
        }
        let found = self.read_line();
        if let Err(fault) = found {
            self.stop(fault);
        }
        found
    }

    // Reads until the next line is complete or the input ends.
    fn read_line(&mut self) -> Result<bool, InputFault>
        requires going { self.old.ended ≡ false }
        requires within { IsWithinLimits self.old }
        ensures ok { IfOk result (λ found. ComesNext found self.old self.new) }
        ensures err { IfErr result (λ fault. Halts fault self.old self.new) }
        ensures within { IsWithinLimits self.new }
    {
        let mut searched = 0;
        loop {
            match find_line(self.held(), searched) {
                LineSearch::Line(len) => {
                    self.give(len, len + 1);
                    return Ok(true);
                }
                LineSearch::Long => return Err(InputFault::LineTooLong),
                LineSearch::Begun => {}
            }
            searched = self.held().len();
            if self.fill()? == 0 {
                self.finish();
                return Ok(searched > 0);
            }
        }
    }

    // Stores this fault, so that every later call returns it.
    fn stop(&mut self, fault: InputFault)
        ensures within { IsWithinLimits self.new }
        ensures told { self.new ≡ record self.old { fault = Some fault } }
    {
        self.fault = Some(fault);
    }

    fn fault(&self) -> Option<InputFault>
        ensures told { result ≡ self.now.fault }
        ensures within { IsWithinLimits self.now }
    {
        self.fault
    }

    fn is_over(&self) -> bool
        ensures ended { result ≡ self.now.ended }
        ensures over { result ≡ true → IsOver self.now }
        ensures within { IsWithinLimits self.now }
    {
        self.is_over
    }

    // Returns the bytes that were read but not yet returned in a line.
    fn held(&self) -> &[u8]
        ensures { result.now ≡ self.now.held }
    {
        &self.buffer.as_slice()[self.width..]
    }

    // Makes the first `line` bytes after the previous line the current line. The line has `width` bytes including its LF.
    fn give(&mut self, line: usize, width: usize)
        requires line { line ≤ width }
        requires width { width ≤ length self.old.held }
        requires going { self.old.ended ≡ false }
        ensures within { IsWithinLimits self.new }
        ensures given { self.new ≡ after_line line width self.old }
    {
        self.buffer.consume(self.width);
        self.line = line;
        self.width = width;
        self.given += width;
    }

    // Makes all held bytes the current line, which is the last line.
    fn finish(&mut self)
        requires end { IsAtEnd self.old.coming }
        ensures within { IsWithinLimits self.new }
        ensures given { self.new ≡ after_last self.old }
    {
        self.buffer.consume(self.width);
        let rest = self.buffer.as_slice().len();
        self.line = rest;
        self.width = rest;
        self.given += rest;
        self.is_over = true;
    }

    // Reads once and returns the number of bytes read. Requests at most one byte more than the input's limit, to find out whether
    // the input is too long.
    fn fill(&mut self) -> Result<usize, InputFault>
        requires short { length self.old.held ≤ 4096 }
        requires going { self.old.ended ≡ false }
        ensures ok { IfOk result (λ n. Fills self.old self.new n) }
        ensures err { IfErr result (λ fault. Fails fault self.old self.new) }
        ensures held { OnErr result (self.new.held ≡ self.old.held) }
        ensures within { IsWithinLimits self.new }
    {
        if self.reads == LONGEST_INPUT {
            return Err(InputFault::TooLong);
        }
        self.buffer.consume(self.width);
        self.line = 0;
        self.width = 0;
        let held = self.buffer.as_slice().len();
        let left = LONGEST_INPUT - self.given - held;
        let Ok(read) = self.buffer.read_from(&mut self.input, left.max(1)) else {
            return Err(InputFault::Read);
        };
        if read > left {
            self.buffer.truncate(held);
            return Err(InputFault::TooLong);
        }
        if read > 0 {
            self.reads += 1;
        }
        Ok(read)
    }
}

// The result of a search for a line at the start of the held bytes.
enum LineSearch {
    // A line of this many bytes, and its LF.
    Line(usize),
    // More bytes than a line may have, and no LF.
    Long,
    // An incomplete line or no bytes.
    Begun,
}

// Searches for a line at the start of the held bytes. The first `searched` bytes are known to contain no LF.
fn find_line(held: &[u8], searched: usize) -> LineSearch
    requires searched { searched ≤ length held.now }
    requires short { searched ≤ 4096 }
    requires unbroken { list_any is_lf (take searched held.now) ≡ false }
    ensures { Shows held.now result }
{
    let shown = &held[..held.len().min(LONGEST_LINE + 1)];
    match line_end(&shown[searched..]) {
        Some(more) => LineSearch::Line(searched + more),
        None if held.len() > LONGEST_LINE => LineSearch::Long,
        None => LineSearch::Begun,
    }
}

fn line_end(bytes: &[u8]) -> Option<usize>
    ensures place { result ≡ position is_lf bytes.now }
    ensures within { IfSome result (λ n. n < length bytes.now) }
{
    place_of(bytes, b'\n')
}
