ghost use Rattle.std.specs.Prelude.{◌≡◌, ◌++◌, ◌<◌, [], All, List, length};
ghost use Rattle.can_event.specs.declared.bus_config.BusConfig.{BusConfig as AConfig};
ghost use Rattle.can_event.specs.declared.entry.Entry.{Entry as AnEntry};
ghost use Rattle.can_event.specs.Events.{max_limit};
ghost use Rattle.can_record_text.specs.Lines.{LineGoesOut};
ghost use Rattle.can_record_text.specs.declared.version.Version.TheVariants as version;
ghost use Rattle.can_record_text.specs.LongRuns.{BlockGoesOut, entries_in, lines_of_blocks};
ghost use Rattle.can_record_text.specs.Spelling.{end_words, front_lines, record_spelling, spell};
ghost use Rattle.can_record.specs.StoredEntry.{entry_stored, IsStored};
ghost use Rattle.can_record_text.specs.inner.StoredLines.{HasFittingReply, stored_line};

use crate::line_writing::write_line;
use crate::lines::put_end;
use crate::record_writing::{put_front, spell_stored};
use crate::rooms::Rooms;
use crate::version::Version;
use can_event::BusConfig;
use can_record::{PackedRecord, StoredEntry};
use std::alloc::Global;
use std::io;
use std::io::Write;
use thiserror::Error;

/// A block could not be written completely.
#[derive(Debug, Drop, Error)]
#[error("write fault")]
pub struct Torn {
    /// The number of whole lines of the block that were written before the fault. A part of the next line may also have
    /// been written, but not the whole line.
    pub whole_lines: u64,
    /// The error of the writer, `WriteZero` if a write accepted no byte, or an error for lack of memory.
    pub why: io::Error,
}

/// Writes the first two lines of the record of a long run. The limit has to be above 16,777,216. Such a record always has
/// version 4, so these lines are known before its entries.
///
/// If the writer fails, only a front part of the two lines has been written.
pub fn write_front<W: Write>(alloc: Global, config: BusConfig, writer: &mut W) -> io::Result<()>
    ensures { LineGoesOut (W.contents writer.old) (W.contents writer.new)
        (front_lines version.Four config []) result }
{
    let mut front = Vec::new(alloc);
    put_front(&mut front, Version::Four, config)?;
    write_line(writer, &front)
}

/// Writes the lines of the next entries in the record of a long run.
///
/// Each line takes one write if the writer accepts it whole. So a writer to a file should be buffered, and the caller has
/// to flush it.
pub fn write_block<W: Write>(
    alloc: Global,
    block: &PackedRecord,
    writer: &mut W,
) -> Result<(), Torn>
    requires { All HasFittingReply block.now.entries }
    ensures { BlockGoesOut (W.contents writer.old) (W.contents writer.new)
        block.now.entries result }
{
    let mut rooms = Rooms::new(alloc);
    for place in 0..block.len() {
        let stored = block.stored(place).unwrap();
        match write_stored(&mut rooms, &stored, writer) {
            Ok(()) => {}
            Err(why) => {
                return Err(Torn {
                    whole_lines: place as u64,
                    why,
                });
            }
        }
    }
    Ok(())
}

/// Writes the line of a stored entry, spelled in one of the buffers in `rooms`. If the writer fails, only a front part of
/// the line has been written.
fn write_stored<W: Write>(
    rooms: &mut Rooms,
    stored: &StoredEntry<'_>,
    writer: &mut W,
) -> io::Result<()>
    requires stored { IsStored stored.now }
    requires fits { HasFittingReply (entry_stored stored.now) }
    ensures { LineGoesOut (W.contents writer.old) (W.contents writer.new)
        (stored_line stored.now) result }
{
    write_line(writer, spell_stored(rooms, stored)?)
}

/// Writes the last line of the record of a long run with `count` entries.
///
/// If the writer fails, only a front part of the line has been written.
pub fn write_end<W: Write>(alloc: Global, count: u64, writer: &mut W) -> io::Result<()>
    ensures { LineGoesOut (W.contents writer.old) (W.contents writer.new)
        (spell (end_words count) []) result }
{
    let mut line = Vec::new(alloc);
    put_end(&mut line, count)?;
    write_line(writer, &line)
}

/// The first two lines, the lines of the blocks and the last line together are the text of the record of all their entries.
pub fn pieces_make_the_text()
    ensures { (c : AConfig) (blocks : List (List AnEntry)) → max_limit < c.limit →
        front_lines version.Four c []
        ++ (lines_of_blocks blocks ++ spell (end_words (length (entries_in blocks))) [])
        ≡ record_spelling c (entries_in blocks) }
{}
