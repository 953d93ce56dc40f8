//! Checks whether a record's bus has as many interfaces as there are names in the faults of the run.
ghost use Rattle.std.specs.Prelude.{◌≡◌, ◌++◌, ◌⊎◌, [], IfErr, List, OnOk, ℕ};
ghost use Rattle.can_replay.specs.declared.wanted.Wanted.{Wanted as AWanted};
ghost use Rattle.can_replay.specs.EventTexts.{HasWritten, has_events, held_events};
ghost use Rattle.can_replay.specs.TextAudits.{bus_taken};
ghost use Rattle.canbusd_audit.specs.Audited.{FitsBus, IsOtherBus, Puts, StopsEvents};

use crate::events::put_events;
use can_replay::TextAudit;
use canbusd_io::{ProgramError, Report};
use std::alloc::{AllocError, Global};
use std::io::Write;

/// Writes the events that an audit has collected, if there are any. If `ifaces` is given and the bus of the record is known, the
/// bus must have this many interfaces.
pub fn put_known<'a, W: Write>(
    alloc: Global,
    path: &str,
    ifaces: Option<u8>,
    audit: &mut TextAudit,
    output: &mut W,
) -> Result<(), Report<'a>>
    ensures phase { audit.new.phase ≡ audit.old.phase }
    ensures asked { has_events audit.new.events ≡ has_events audit.old.events }
    ensures fits { OnOk result (FitsBus ifaces (bus_taken audit.old.phase)) }
    ensures written { OnOk result ((w : AWanted) (text events : List ℕ) →
        HasWritten w text events audit.old →
        HasWritten w text (events ++ held_events audit.old.events) audit.new) }
    ensures none { OnOk result (held_events audit.new.events ≡ []) }
    ensures put { OnOk result (Puts (has_events audit.old.events) W.contents output.old output.new
        (held_events audit.old.events)) }
    ensures fault { IfErr result (λ failure.
        StopsEvents (has_events audit.old.events) failure.error ⊎
        (IsOtherBus ifaces (bus_taken audit.old.phase) failure.error ×
        (output.new ≡ output.old))) }
{
    check_bus(alloc, path, ifaces, audit)?;
    put_events(alloc, audit, output)
}

// Refuses the record if its bus is known and has a different number of interfaces.
fn check_bus<'a>(
    alloc: Global,
    path: &str,
    ifaces: Option<u8>,
    audit: &TextAudit,
) -> Result<(), Report<'a>>
    ensures fits { OnOk result (FitsBus ifaces (bus_taken audit.now.phase)) }
    ensures other { IfErr result (λ failure.
        IsOtherBus ifaces (bus_taken audit.now.phase) failure.error) }
{
    let Some(named) = ifaces else {
        return Ok(());
    };
    let Some(bus) = audit.bus() else {
        return Ok(());
    };
    if bus.ifaces == named {
        return Ok(());
    }
    let note = other_note(alloc, path, named, bus.ifaces);
    Err(Report::with(alloc, ProgramError::OtherBus, note))
}

// Returns a note that compares the number of names with the number of interfaces.
fn other_note(alloc: Global, path: &str, named: u8, ifaces: u8) -> Result<String, AllocError> {
    format!(in alloc; "  names in --faults: {named}, interfaces of {path}: {ifaces}\n")
}
