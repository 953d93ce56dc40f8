//! Writes the events of a record's entries as text.
ghost use Rattle.std.specs.Prelude.{◌≡◌, ◌++◌, ◌↔◌, [], true, false, IfErr, IfOk, IsTrue, List, OnOk, ℕ};
ghost use Rattle.can_event.specs.declared.entry.Entry.{Entry as AnEntry};
ghost use Rattle.can_record_text.specs.Spelling.{entry_line};
ghost use Rattle.can_replay.specs.Brought.{is_step};
ghost use Rattle.can_replay.specs.EventsText.{nothing_wanted, rules_at_end, rules_at_start, events_version as events_first_line};
ghost use Rattle.can_replay.specs.EventTexts.{WritesOn, WritesParts, is_legal_yet};
ghost use Rattle.can_replay.specs.TextAudits.{FailsNext, TakesOn};
ghost use Rattle.can_replay.specs.inner.EntryAudits.{IsGoing};

use crate::before::Before;
use crate::entry_audit::EntryAudit;
use crate::fronts::first_line;
use crate::ruled::{put_first_rules, put_last_rules};
use crate::wanted::Wanted;
use can_record_text::ReadFault;
use can_record_text::rooms::Rooms;
use std::alloc::{AllocError, Global};

/// The text of the events of the legal entries, without the part that was cleared. Only complete lines are appended.
#[derive(Drop)]
pub struct EventsText {
    text: Vec<u8>,
    /// A buffer in which the next line is built.
    line: Vec<u8>,
    /// The state of the bus before an attempt, a restart or a down.
    before: Before,
    /// The other parts that are wanted in the lines. Its fault rules were queried for all entries so far.
    wanted: Wanted,
}

impl EventsText {
    /// Returns a value whose text is empty.
    pub fn new(alloc: Global, wanted: Wanted) -> Result<EventsText, AllocError>
        ensures text { IfOk result (λ events. events.text.items ≡ []) }
        ensures wanted { IfOk result (λ events. events.wanted ≡ wanted) }
    {
        Ok(EventsText {
            text: Vec::new(alloc),
            line: Vec::new(alloc),
            before: Before::new(alloc)?,
            wanted,
        })
    }

    /// Returns the text that was written and not yet cleared.
    pub fn text(&self) -> &[u8]
        ensures { result.now ≡ self.now.text.items }
    {
        &self.text
    }

    /// Clears the text written so far.
    pub fn clear(&mut self)
        ensures text { self.new.text.items ≡ [] }
        ensures wanted { self.new.wanted ≡ self.old.wanted }
    {
        self.text.clear();
    }

    /// Writes the line that names the format, then `line`, which describes the bus, and then the lines of the script's rules.
    pub fn begin(&mut self, line: &[u8]) -> Result<(), AllocError>
        ensures begun { OnOk result (self.new.text.items ≡ self.old.text.items ++
            (events_first_line ++ line.now ++ rules_at_start self.old.wanted.faults)) }
        ensures kept { IfErr result (λ why. self.new.text.items ≡ self.old.text.items) }
        ensures wanted { self.new.wanted ≡ self.old.wanted }
    {
        self.line.clear();
        self.line.extend_from_slice(first_line())?;
        self.line.extend_from_slice(line)?;
        put_first_rules(&mut self.line, &self.wanted.faults)?;
        self.text.extend_from_slice(&self.line)
    }

    /// Writes the lines for the rules that the bus accepts after the last entry, and for each removal of all rules. No entry may
    /// follow.
    pub fn put_last_rules(&mut self, out: &mut Vec<u8>) -> Result<(), AllocError>
        ensures { OnOk result
            (out.new.items ≡ out.old.items ++ rules_at_end self.old.wanted.faults) }
    {
        put_last_rules(out, &mut self.wanted.faults)
    }

    /// Passes the next line to the audit, and writes the line with the events of its entry. It writes only if this entry and all
    /// entries before it are legal.
    pub fn carry(
        &mut self,
        alloc: Global,
        audit: &mut EntryAudit,
        rooms: &mut Rooms,
        line: &[u8],
    ) -> Result<(), ReadFault>
        ensures taken { OnOk result (TakesOn IsGoing audit.old audit.new line.now) }
        ensures fault { IfErr result (FailsNext IsGoing audit.old line.now) }
        ensures written { OnOk result (WritesOn self.old audit.old self.new audit.new line.now) }
        ensures kept { IfErr result (λ why. self.new.text.items ≡ self.old.text.items) }
    {
        if !audit.is_legal_yet() {
            audit.carry(alloc, rooms, line)
        } else if is_step_line(line) {
            self.carry_step(alloc, audit, rooms, line)
        } else {
            self.carry_quiet(alloc, audit, rooms, line)
        }
    }

    // Does the same as `carry` for the line of an attempt, a restart or a down. All entries before it are legal.
    fn carry_step(
        &mut self,
        alloc: Global,
        audit: &mut EntryAudit,
        rooms: &mut Rooms,
        line: &[u8],
    ) -> Result<(), ReadFault>
        requires legal { is_legal_yet audit.old ≡ true }
        requires step { (e : AnEntry) → line.now ≡ entry_line e [] → is_step e.event ≡ true }
        ensures taken { OnOk result (TakesOn IsGoing audit.old audit.new line.now) }
        ensures fault { IfErr result (FailsNext IsGoing audit.old line.now) }
        ensures written { OnOk result (WritesOn self.old audit.old self.new audit.new line.now) }
        ensures kept { IfErr result (λ why. self.new.text.items ≡ self.old.text.items) }
    {
        let Ok(()) = self.before.look(audit.bus()) else {
            return Err(ReadFault::NoMemory);
        };
        audit.carry(alloc, rooms, line)?;
        if !audit.is_legal_yet() {
            return Ok(());
        }
        match self.write_step(alloc, audit, rooms, line) {
            Ok(()) => Ok(()),
            Err(_) => Err(ReadFault::NoMemory),
        }
    }

    // Does the same as `carry` for the line of any other kind of entry.
    fn carry_quiet(
        &mut self,
        alloc: Global,
        audit: &mut EntryAudit,
        rooms: &mut Rooms,
        line: &[u8],
    ) -> Result<(), ReadFault>
        requires legal { is_legal_yet audit.old ≡ true }
        requires quiet { (e : AnEntry) → line.now ≡ entry_line e [] → is_step e.event ≡ false }
        ensures taken { OnOk result (TakesOn IsGoing audit.old audit.new line.now) }
        ensures fault { IfErr result (FailsNext IsGoing audit.old line.now) }
        ensures written { OnOk result (WritesOn self.old audit.old self.new audit.new line.now) }
        ensures kept { IfErr result (λ why. self.new.text.items ≡ self.old.text.items) }
    {
        audit.carry(alloc, rooms, line)?;
        if !audit.is_legal_yet() {
            return Ok(());
        }
        match self.text.extend_from_slice(line) {
            Ok(()) => Ok(()),
            Err(_) => Err(ReadFault::NoMemory),
        }
    }

    // Writes the line of an attempt, a restart or a down with its parts. The audit has already taken this line.
    fn write_step(
        &mut self,
        alloc: Global,
        audit: &EntryAudit,
        rooms: &mut Rooms,
        line: &[u8],
    ) -> Result<(), AllocError>
        ensures written { OnOk result (WritesParts self.old audit.now line.now self.new) }
        ensures kept { IfErr result (λ why. self.new.text.items ≡ self.old.text.items) }
    {
        if self.wanted.is_nothing() {
            self.write_parts(audit, line)
        } else {
            self.write_wanted_parts(alloc, audit, rooms, line)
        }
    }

    // Does the same as `write_step` if no other parts are wanted.
    fn write_parts(&mut self, audit: &EntryAudit, line: &[u8]) -> Result<(), AllocError>
        requires { self.old.wanted ≡ nothing_wanted }
        ensures written { OnOk result (WritesParts self.old audit.now line.now self.new) }
        ensures kept { IfErr result (λ why. self.new.text.items ≡ self.old.text.items) }
    {
        self.line.clear();
        self.before.put_line(&mut self.line, audit.bus(), line)?;
        self.text.extend_from_slice(&self.line)
    }

    // Does the same as `write_step` if other parts are wanted. It reads the entry from the line again, because the audit does not
    // store it.
    #[inline(never)]
    fn write_wanted_parts(
        &mut self,
        alloc: Global,
        audit: &EntryAudit,
        rooms: &mut Rooms,
        line: &[u8],
    ) -> Result<(), AllocError>
        ensures written { OnOk result (WritesParts self.old audit.now line.now self.new) }
        ensures kept { IfErr result (λ why. self.new.text.items ≡ self.old.text.items) }
    {
        let Ok(entry) = audit.read_again(alloc, rooms, line) else {
            return Err(AllocError);
        };
        self.line.clear();
        let wanted = &mut self.wanted;
        self.before
            .put_wanted_line(&mut self.line, audit.bus(), line, wanted, &entry)?;
        self.text.extend_from_slice(&self.line)
    }
}

/// Returns whether a line records an attempt, a restart or a down.
fn is_step_line(line: &[u8]) -> bool
    ensures yes { IsTrue result →
        (e : AnEntry) → line.now ≡ entry_line e [] → is_step e.event ≡ true }
    ensures no { result ≡ false →
        (e : AnEntry) → line.now ≡ entry_line e [] → is_step e.event ≡ false }
{
    line.starts_with(b"attempt ") || line.starts_with(b"restart ") || line.starts_with(b"down ")
}
