ghost use Rattle.std.specs.Prelude.{◌≡◌, ◌≤◌, IfOk, IfSome, IsNone, OnErr, drop, false, is_some, length, take};
ghost use Rattle.can_replay.specs.EventTexts.{has_events};
ghost use Rattle.can_replay.specs.TextAudits.{bus_taken};
ghost use Rattle.canbusd_audit.specs.Audited.{BecomesOf, HoldsBefore, IsWrongNext, TakesMore};

use can_record_text::ReadFault;
use can_replay::TextAudit;
use memchr::memchr;
use std::alloc::Global;
use std::io;
use std::io::{BufRead, Error, ErrorKind};

/// The result of one read of an input.
#[derive(Debug, Clone, Copy)]
pub enum Buffered {
    /// The read returned no bytes, because the input has ended.
    End,
    /// Complete lines were taken, and a part of the next line may remain. If the read was interrupted, nothing was taken.
    Lines,
    /// A line is wrong. It is still in the input, and the lines before it were taken.
    Wrong(ReadFault),
}

/// Takes the complete lines in the buffer of an input and counts them. It stops after the line that describes the record's bus. If
/// the buffer is empty, it reads once.
pub fn take_held<R: BufRead>(
    alloc: Global,
    input: &mut R,
    audit: &mut TextAudit,
    lines: &mut u64,
) -> io::Result<Buffered>
    ensures became { IfOk result (λ held.
        BecomesOf held (R.remaining input.old) (R.remaining input.new) audit.old audit.new) }
    ensures failed { OnErr result (audit.new ≡ audit.old) }
    ensures asked { has_events audit.new.events ≡ has_events audit.old.events }
{
    let held = match input.fill_buf() {
        Ok(held) => held,
        Err(error) => return unfilled(error),
    };
    if held.is_empty() {
        return Ok(Buffered::End);
    }
    let (len, fault) = carry_held(alloc, held, audit, lines);
    input.consume(len);
    match fault {
        None => Ok(Buffered::Lines),
        Some(fault) => Ok(Buffered::Wrong(fault)),
    }
}

// Returns the result for a read that failed.
fn unfilled(error: Error) -> io::Result<Buffered>
    ensures { IfOk result (λ held. held ≡ Buffered.Lines) }
{
    if error.kind() == ErrorKind::Interrupted {
        Ok(Buffered::Lines)
    } else {
        Err(error)
    }
}

// Takes the complete lines at the start of these bytes and counts them. It stops after the line that describes the record's bus.
// Returns the number of bytes taken, and the fault of the next line if that line is wrong.
fn carry_held(
    alloc: Global,
    held: &[u8],
    audit: &mut TextAudit,
    lines: &mut u64,
) -> (usize, Option<ReadFault>)
    ensures within { result.0 ≤ length held.now }
    ensures taken { IsNone result.1 → TakesMore audit.old (take result.0 held.now) audit.new }
    ensures fault { IfSome result.1 (λ why. IsWrongNext audit.old held.now why) }
    ensures before { IfSome result.1 (λ why.
        HoldsBefore audit.old (take result.0 held.now) (drop result.0 held.now) why audit.new) }
    ensures asked { has_events audit.new.events ≡ has_events audit.old.events }
{
    let was_known = knows_bus(audit);
    let mut len = 0;
    while let Some(place) = memchr(b'\n', &held[len..]) {
        let end = len + place + 1;
        match audit.carry(alloc, &held[len..end]) {
            Ok(()) => {}
            Err(fault) => return (len, Some(fault)),
        }
        *lines = lines.saturating_add(1);
        len = end;
        if learned_bus(was_known, audit) {
            return (len, None);
        }
    }
    (len, None)
}

// Returns whether an audit has just taken the line that describes its record's bus.
fn learned_bus(was_known: bool, audit: &TextAudit) -> bool
    ensures { was_known ≡ false → result ≡ is_some (bus_taken audit.now.phase) }
{
    !was_known && knows_bus(audit)
}

// Returns whether the bus of an audit's record is known.
fn knows_bus(audit: &TextAudit) -> bool
    ensures { result ≡ is_some (bus_taken audit.now.phase) }
{
    audit.bus().is_some()
}
