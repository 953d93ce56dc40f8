//! A writer that looks for refusals in its output.
ghost use Rattle.std.specs.Prelude.{◌≡◌, ◌≢◌, ◌+◌, ◌<◌, ◌^◌, ◌⊎◌, false, true, length, IfNone, IfSome, IsSome, Some};
ghost use Rattle.canbusd_io.specs.declared.program_error.ProgramError.TheVariants as fault;
ghost use Rattle.canbusd_bench.specs.inner.Watched.{seen_after as seen_after_byte, seen_in, told};

use canbusd_io::{OUTPUT, ProgramError, Report, Shown};
use std::alloc::{AllocError, Global};
use std::io;
use std::io::{Error, ErrorKind, Write};

/// The bytes at the start of a refusal. A lower-case letter follows them.
const FRONT: [u8; 8] = *b"< error ";

/// The value of `seen` after the start of a refusal and a lower-case letter were found.
const FOUND: u8 = 9;

/// The largest number of bytes that are kept from a piece of output.
const KEPT: usize = 80;

/// A writer that passes its output on to another writer. If `is_on` is true, it looks for the first refusal in the output.
#[derive(Drop)]
pub struct Watch<'w, W> {
    writer: &'w mut W,
    is_on: bool,
    // The number of bytes written so far.
    written: u64,
    // How many of the last bytes may be the start of a refusal, or `FOUND`.
    seen: u8,
    // The first bytes of the piece that contains the first refusal. `place` is the number of bytes before that piece.
    piece: Vec<u8>,
    place: u64,
}

impl<'w, W> Watch<'w, W> {
    /// Returns a watcher that has written nothing yet.
    pub fn new(alloc: Global, is_on: bool, writer: &'w mut W) -> Watch<'w, W>
        ensures writer { result.writer ≡ writer.entry }
        ensures on { result.is_on ≡ is_on }
        ensures written { result.written ≡ 0 }
        ensures seen { result.seen ≡ 0 }
    {
        Watch {
            writer,
            is_on,
            written: 0,
            seen: 0,
            piece: Vec::new(alloc),
            place: 0,
        }
    }

    /// Returns the writer, and a report if the output contained a refusal.
    pub fn finish<'a>(self, alloc: Global) -> (&'w mut W, Option<Report<'a>>)
        ensures writer { result.0 ≡ self.entry.writer }
        ensures some { IfSome result.1 (λ failure. failure.error ≡ fault.Refused) }
        ensures seen { IsSome result.1 → (self.entry.is_on ≡ true) × (self.entry.seen ≡ 9) }
        ensures none { IfNone result.1 ((self.entry.is_on ≡ false) ⊎ (self.entry.seen ≢ 9)) }
    {
        if self.is_on && self.seen == FOUND {
            let note = self.note(alloc);
            (
                self.writer,
                Some(Report::with(alloc, ProgramError::Refused, note)),
            )
        } else {
            (self.writer, None)
        }
    }

    // Returns a note on where the first refusal is in the output.
    fn note(&self, alloc: Global) -> Result<String, AllocError> {
        let piece = self.piece.strip_suffix(b"\n").unwrap_or(&self.piece);
        let (place, piece) = (self.place, Shown::cut(piece));
        format!(in alloc; "  {OUTPUT}, byte {place}: {piece}\n")
    }

    // Looks for a refusal in a piece of output that was written.
    fn look(&mut self, piece: &[u8])
        requires { self.old.is_on ≡ true → self.old.written + length piece.now < 2 ^ 64 }
        ensures writer { self.new.writer ≡ self.old.writer }
        ensures on { self.new.is_on ≡ self.old.is_on }
        ensures written { self.old.is_on ≡ true →
            self.new.written ≡ self.old.written + length piece.now }
        ensures seen { self.old.is_on ≡ true → self.new.seen ≡ seen_in self.old.seen piece.now }
    {
        if !self.is_on {
            return;
        }
        let seen = seen_in(self.seen, piece);
        if seen == FOUND && self.seen != FOUND {
            self.place = self.written;
            let _ = self
                .piece
                .extend_from_slice(&piece[..piece.len().min(KEPT)]);
        }
        self.seen = seen;
        self.written += piece.len() as u64;
    }
}

impl<W: Write> Write for Watch<'_, W> {
    ghost contents = { λ w.
        told w.writer.ghost_name w.is_on w.written w.seen (W.contents w.writer.now) };

    fn write(&mut self, piece: &[u8]) -> io::Result<usize> {
        if self.is_on && self.written.checked_add(piece.len() as u64).is_none() {
            return Err(Error::from(ErrorKind::FileTooLarge));
        }
        let count = self.writer.write(piece)?;
        self.look(&piece[..count]);
        Ok(count)
    }

    fn flush(&mut self) -> io::Result<()> {
        self.writer.flush()
    }
}

// Returns how many of the last bytes may be the start of a refusal, after this piece was written.
#[tactic(auto, using(std::proofs::lemmas::List::Sums::fold_more))]
fn seen_in(seen: u8, piece: &[u8]) -> u8
    ensures { result ≡ seen_in seen piece.now }
{
    let mut last = seen;
    for byte in piece {
        last = seen_after(last, *byte);
    }
    last
}

fn seen_after(seen: u8, byte: u8) -> u8
    ensures { result ≡ seen_after_byte seen byte }
{
    match byte {
        _ if seen == FOUND => FOUND,
        b'<' => 1,
        b'a'..=b'z' if usize::from(seen) == FRONT.len() => FOUND,
        _ if FRONT.get(usize::from(seen)) == Some(&byte) => seen + 1,
        _ => 0,
    }
}
