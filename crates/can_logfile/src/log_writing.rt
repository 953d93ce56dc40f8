ghost use Rattle.std.specs.Prelude.{◌≡◌, ◌<◌, ◌+◌, ◌^◌, IfErr, IfOk, List, reverse, slice_get, ℕ};
ghost use Rattle.can_frame.specs.Names.{AreNames};
ghost use Rattle.can_event.specs.declared.entry.Entry.{Entry as AnEntry};
ghost use Rattle.can_record_text.specs.Lines.{LineGoesOut};
ghost use Rattle.can_record_text.specs.LongRuns.{entries_in};
ghost use Rattle.can_logfile.specs.Log.{lines_of_blocks, log_line, log_lines, tried_in, tried_of, LinesGoOut};

use crate::lines::log_line;
use can_event::{Attempt, Reply, Tried};
use can_frame::Names;
use can_record::{PackedRecord, Record};
use can_record_text::write_line;
use std::io::Write;
use thiserror::Error;

/// The writer failed after this many whole lines.
#[derive(Debug, Clone, Copy, PartialEq, Eq, Error)]
#[error("write fault")]
pub struct LogFault {
    /// The number of whole lines that were written before the fault. A part of the next line may also have been written,
    /// but not the whole line.
    pub whole_lines: u64,
}

/// Writes the tape of a record: a line for each tried frame, the oldest first. It returns the number of lines.
///
/// A line is `(SSSSSSSSSS.MMMMMM) NAME TEXT` and LF: the moment in seconds, the name of the winner's interface (`?` if it
/// has no name), and the text of the frame. If the frame was destroyed, the text is `20000080#0000000000000000`. If nobody
/// acknowledged the frame, the text is `200000A0#0000000000000000`. These are error message frames of the class
/// CAN_ERR_BUSERROR, in the second case together with CAN_ERR_ACK (linux/can/error.h).
///
/// Each line is made in place, without taking memory, and takes one write if the writer accepts it whole. So a writer to a
/// file should be buffered, and the caller has to flush it. A write that accepts no byte is a fault, and so is an
/// interrupted write.
pub fn write_tape<W: Write>(names: &Names, record: &Record, writer: &mut W) -> Result<u64, LogFault>
    ensures { LinesGoOut (W.contents writer.old) (W.contents writer.new)
        (log_lines names.now «record».now.history) result }
{
    // Counting the names shows the prover that no name is too long.
    let _count = names.count();
    let mut whole_lines = 0;
    for place in 0..record.len() {
        if let Some(tried) = tried_at(record, place) {
            match write_tried(names, &tried, whole_lines, writer) {
                Ok(lines) => whole_lines = lines,
                Err(fault) => return Err(fault),
            }
        }
    }
    Ok(whole_lines)
}

/// Writes the lines of the frames that were tried in these entries, which are the next entries of a history. It returns the
/// number of lines.
///
/// The lines are written in the same format and in the same way as by `write_tape`.
pub fn write_entries<W: Write>(
    names: &Names,
    entries: &PackedRecord,
    writer: &mut W,
) -> Result<u64, LogFault>
    ensures { LinesGoOut (W.contents writer.old) (W.contents writer.new)
        (log_lines names.now (reverse entries.now.entries)) result }
{
    // Counting the names shows the prover that no name is too long.
    let _count = names.count();
    let mut whole_lines = 0;
    for place in 0..entries.len() {
        if let Some(tried) = tried_among(entries, place) {
            match write_tried(names, &tried, whole_lines, writer) {
                Ok(lines) => whole_lines = lines,
                Err(fault) => return Err(fault),
            }
        }
    }
    Ok(whole_lines)
}

/// The lines of the blocks, one block after another, are the lines of all their entries.
pub fn blocks_make_the_log()
    ensures { (names : List (List ℕ)) (blocks : List (List AnEntry)) →
        log_lines names (reverse (entries_in blocks)) ≡ lines_of_blocks names blocks }
{}

/// Writes the line of a tried frame. `whole_lines` is the number of lines written before; it returns the number that
/// includes this line.
fn write_tried<W: Write>(
    names: &Names,
    tried: &Tried,
    whole_lines: u64,
    writer: &mut W,
) -> Result<u64, LogFault>
    requires names { AreNames names.now }
    requires few { whole_lines + 1 < 2 ^ 64 }
    ensures more { IfOk result (λ n. n ≡ whole_lines + 1) }
    ensures torn { IfErr result (λ fault. fault.whole_lines ≡ whole_lines) }
    ensures line { LineGoesOut (W.contents writer.old) (W.contents writer.new)
        (log_line names.now tried.now) result }
{
    let line = log_line(names, tried);
    match write_line(writer, line.as_bytes()) {
        Ok(()) => Ok(whole_lines + 1),
        Err(_) => Err(LogFault { whole_lines }),
    }
}

/// Returns the frame that was tried in the entry at a place of a record, if there is one.
fn tried_at(record: &Record, place: usize) -> Option<Tried>
    ensures { result ≡ tried_in (slice_get (reverse «record».now.history) place) }
{
    tried_of(&record.entry(place)?.entry().reply)
}

/// Returns the frame that was tried in the entry at a place of a list, if there is one.
fn tried_among(entries: &PackedRecord, place: usize) -> Option<Tried>
    ensures { result ≡ tried_in (slice_get entries.now.entries place) }
{
    tried_of(&entries.look(place)?.entry().reply)
}

/// Returns the frame that was tried, if the reply has one.
fn tried_of(reply: &Reply) -> Option<Tried>
    ensures { result ≡ tried_of reply.now }
{
    match reply {
        Reply::Attempted(Attempt::Tried(tried)) => Some(*tried),
        _ => None,
    }
}
