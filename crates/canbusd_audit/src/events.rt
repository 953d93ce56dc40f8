//! Writes the events of a record's entries.
ghost use Rattle.std.specs.Prelude.{◌≡◌, ◌++◌, [], IfErr, List, OnOk, ℕ};
ghost use Rattle.std.specs.Io.KnownBytes.{Appends};
ghost use Rattle.can_replay.specs.declared.wanted.Wanted.{Wanted as AWanted};
ghost use Rattle.can_replay.specs.EventTexts.{HasWritten, has_events, held_events};
ghost use Rattle.canbusd_audit.specs.Audited.{Puts, StopsEvents};

use can_replay::TextAudit;
use canbusd_io::{OUTPUT, Report, write_failure};
use std::alloc::Global;
use std::io;
use std::io::Write;

/// Writes the events that an audit has collected, if there are any.
pub fn put_events<'a, W: Write>(
    alloc: Global,
    audit: &mut TextAudit,
    output: &mut W,
) -> Result<(), Report<'a>>
    ensures phase { audit.new.phase ≡ audit.old.phase }
    ensures asked { has_events audit.new.events ≡ has_events audit.old.events }
    ensures written { OnOk result ((w : AWanted) (text events : List ℕ) →
        HasWritten w text events audit.old →
        HasWritten w text (events ++ held_events audit.old.events) audit.new) }
    ensures none { OnOk result (held_events audit.new.events ≡ []) }
    ensures put { OnOk result (Puts (has_events audit.old.events) W.contents output.old output.new
        (held_events audit.old.events)) }
    ensures fault { IfErr result (λ failure.
        StopsEvents (has_events audit.old.events) failure.error) }
{
    if audit.events().is_empty() {
        return Ok(());
    }
    match write_out(output, audit.events()) {
        Ok(()) => {
            audit.clear_events();
            Ok(())
        }
        Err(error) => Err(write_failure(alloc, OUTPUT, &error)),
    }
}

// Writes bytes and flushes them, because a reader may be waiting for them.
fn write_out<W: Write>(output: &mut W, bytes: &[u8]) -> io::Result<()>
    ensures { OnOk result (Appends (W.contents output.old) (W.contents output.new) bytes.now) }
{
    output.write_all(bytes)?;
    output.flush()
}
