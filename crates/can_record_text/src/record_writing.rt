ghost use Rattle.std.specs.Prelude.{◌≡◌, ◌≤◌, ◌++◌, [], length, IfOk, IsTrue, OnOk};
ghost use Rattle.std.specs.Io.KnownBytes.{Appends};
ghost use Rattle.can_event.specs.Spelled.{FitsReply};
ghost use Rattle.can_record.specs.PackedEntry.{entry_in, frames_needed, IsSmall};
ghost use Rattle.can_record.specs.StoredEntry.{entry_stored, IsStored};
ghost use Rattle.can_record_text.specs.Spelling.{answered_line, entry_line, front_lines};
ghost use Rattle.can_record_text.specs.Texts.{lines_of, text_of};
ghost use Rattle.can_record_text.specs.inner.StoredLines.{HasFittingReply, stored_line};

use crate::line_words::LineText;
use crate::lines::{put_answered, put_bus, put_end};
use crate::needs::Needs;
use crate::packed_lines::push_entry;
use crate::rooms::Rooms;
use crate::version::Version;
use can_event::{BusConfig, Event, Reply};
use can_frame::Frame;
use can_record::{PackedEntry, Record, StoredEntry, event_in, reply_in};
use std::alloc::{AllocError, Global};
use std::io;
use std::io::Write;

/// Returns the text of a record: a first line that names the version, a line for the bus configuration, a line for each
/// entry, the oldest first, and a last line with the number of entries. Each line ends with LF, and the bytes are ASCII.
/// The version is the first in this list whose condition holds: 6 if a call takes an interface down or is refused because
/// its interface is down; 5 if an FD frame has a flag; 3 if there is an FD frame or the option for FD frames; 2 if
/// interfaces are restarted automatically; otherwise 1.
///
/// Each record has exactly one text, and each text is of at most one record. The text takes about 40 bytes per entry. It
/// grows in place, and the time is linear in its length.
pub fn record_text(alloc: Global, record: &Record) -> Result<Vec<u8>, AllocError>
    ensures { IfOk result (λ text. text.items ≡ text_of «record».now) }
{
    let mut text = Vec::new(alloc);
    match write_record(alloc, record, &mut text) {
        Ok(()) => Ok(text),
        Err(_) => Err(AllocError),
    }
}

/// Returns the line of an event with this reply in the text of a record, with its LF.
pub fn line_text(alloc: Global, event: &Event, reply: &Reply) -> Result<Vec<u8>, AllocError>
    requires { FitsReply event.now reply.now }
    ensures { IfOk result (λ text. text.items ≡ answered_line event.now reply.now []) }
{
    let mut text = Vec::new(alloc);
    put_answered(&mut text, event, reply)?;
    Ok(text)
}

/// Writes the text of a record with one write for each line, so a writer to a file should be a `BufWriter`. It holds at
/// most one line in memory. If the writer fails or memory is refused, a front part of the text may already have been
/// written.
pub fn write_record<W: Write>(alloc: Global, record: &Record, writer: &mut W) -> io::Result<()>
    ensures { OnOk result (Appends (W.contents writer.old) (W.contents writer.new)
        (text_of «record».now)) }
{
    let mut rooms = Rooms::new(alloc);
    let config = record.config();
    let version = Version::of(config, Needs::of_record(record));
    put_front(&mut rooms.long, version, config)?;
    writer.write_all(&rooms.long)?;
    write_lines(&mut rooms, record, writer)?;
    rooms.long.clear();
    put_end(&mut rooms.long, record.len() as u64)?;
    writer.write_all(&rooms.long)?;
    Ok(())
}

/// Appends the first two lines.
pub(crate) fn put_front(
    out: &mut Vec<u8>,
    version: Version,
    config: BusConfig,
) -> Result<(), AllocError>
    ensures { OnOk result (out.new.items ≡ out.old.items ++ front_lines version config []) }
{
    out.extend_from_slice(version.first_line())?;
    put_bus(out, version, config)
}

/// Writes the lines of the entries.
fn write_lines<W: Write>(rooms: &mut Rooms, record: &Record, writer: &mut W) -> io::Result<()>
    ensures { OnOk result (Appends (W.contents writer.old) (W.contents writer.new)
        (lines_of «record».now)) }
{
    for place in 0..record.len() {
        let stored = record.stored(place).unwrap();
        writer.write_all(spell_stored(rooms, &stored)?)?;
    }
    Ok(())
}

/// Returns the line of a stored entry, spelled in one of the buffers in `rooms`.
pub(crate) fn spell_stored<'a>(
    rooms: &'a mut Rooms,
    stored: &StoredEntry<'_>,
) -> Result<&'a [u8], AllocError>
    requires stored { IsStored stored.now }
    requires fits { HasFittingReply (entry_stored stored.now) }
    ensures { IfOk result (λ line. line.now ≡ stored_line stored.now) }
{
    rooms.short.clear();
    if push_stored(&mut rooms.short, stored) {
        return Ok(rooms.short.as_bytes());
    }
    rooms.long.clear();
    put_stored(&mut rooms.long, stored)?;
    Ok(&rooms.long)
}

/// Appends the line of a stored entry and returns true, if the entry is packed and of a common kind. Otherwise it returns
/// false, and the contents of `line` are meaningless.
fn push_stored(line: &mut LineText, stored: &StoredEntry<'_>) -> bool
    requires { line.old ≡ [] }
    ensures { IsTrue result → line.new ≡ stored_line stored.now }
{
    match stored {
        StoredEntry::Packed(_, kept) => push_entry(line, kept),
        StoredEntry::Whole(_) => false,
    }
}

/// Appends the line of any stored entry to `out`.
#[inline(never)]
fn put_stored(out: &mut Vec<u8>, stored: &StoredEntry<'_>) -> Result<(), AllocError>
    requires stored { IsStored stored.now }
    requires fits { HasFittingReply (entry_stored stored.now) }
    ensures { OnOk result (out.new.items ≡ out.old.items ++ stored_line stored.now) }
{
    match stored {
        StoredEntry::Packed(frames, kept) => put_entry(out, frames, kept),
        StoredEntry::Whole(entry) => put_answered(out, &entry.event, &entry.reply),
    }
}

/// Appends the line of a packed entry to `out`.
fn put_entry(out: &mut Vec<u8>, frames: &[Frame], kept: &PackedEntry) -> Result<(), AllocError>
    requires small { IsSmall kept.now }
    requires within { frames_needed kept.now ≤ length frames.now }
    requires fits { HasFittingReply (entry_in frames.now kept.now) }
    ensures { OnOk result (out.new.items ≡ out.old.items ++
        entry_line (entry_in frames.now kept.now) []) }
{
    put_answered(out, &event_in(frames, kept), &reply_in(frames, kept))
}
