ghost use Rattle.std.specs.Prelude.{◌≡◌, ◌++◌, [], Err, IfErr, IfOk, List, OnOk, Option, Some, false, true, ℕ};
ghost use Rattle.can_record_text.specs.declared.fault.ReadFault.{ReadFault as AFault};
ghost use Rattle.can_record_text.specs.RecordFaults.{LacksFirst};
ghost use Rattle.can_record_text.specs.Spelling.{first_line};
ghost use Rattle.can_record_text.specs.Texts.{StartsWith};
ghost use Rattle.can_replay.specs.EventsText.{events_version as events_first_line};
ghost use Rattle.can_replay.specs.declared.wanted.Wanted.{Wanted as AWanted};
ghost use Rattle.can_replay.specs.declared.text_fault.WrongLine.{WrongLine as AWrongLine};
ghost use Rattle.can_replay.specs.declared.events_text.EventsText.{EventsText as AnEventsText};
ghost use Rattle.can_replay.specs.EventTexts.{AreWritten, Completes, EndsCutEvents, EndsEvents, HasWritten, IsWantedAfter, has_events, held_events, rules_first, rules_last, wrong_so_far};
ghost use Rattle.can_replay.specs.TextAudits.{AreTaken, EndsNoLine, FailsAfter, FailsNext, HasFailed, IsLine, TakesOn, Reports, ReportsCut, bus_taken, first_taken, has_end_line};

use crate::entry_audit::EntryAudit;
use crate::events_text::EventsText;
use crate::text_fault::{Cut, TextFault};
use crate::wanted::Wanted;
use can_bus::BusConfig;
use can_record_text::ReadFault;
use can_record_text::lines::read_version;
use can_record_text::rooms::Rooms;
use can_record_text::version::Version;
use std::alloc::{AllocError, Global};

/// The part of a text that an audit has taken so far.
#[derive(Drop)]
enum Phase {
    /// No line has been taken yet.
    Start,
    /// The first line, which names the version, was taken.
    Front(Version),
    /// The line that describes the bus was taken, and possibly lines after it.
    Entries(EntryAudit),
    /// A line was faulty.
    Failed(ReadFault),
}

/// An audit that takes the lines of a text one after another and does not store them. Contracts name the text so far, which
/// consists of the lines taken. A line ends with its LF. A line without an LF is the last line of the text. After a faulty line
/// every call returns the same fault. An audit with events also writes the events of the legal entries, and holds the part of that
/// text that was not cleared.
#[derive(Drop)]
pub struct TextAudit {
    phase: Phase,
    rooms: Rooms,
    events: Option<EventsText>,
}

impl TextAudit {
    /// Returns an audit that has taken no lines.
    pub fn new(alloc: Global) -> TextAudit
        ensures taken { AreTaken [] result }
        ensures written { (w : AWanted) → HasWritten w [] [] result }
        ensures none { held_events result.events ≡ [] }
        ensures events { has_events result.events ≡ false }
    {
        TextAudit {
            phase: Phase::Start,
            rooms: Rooms::new(alloc),
            events: None,
        }
    }

    /// Returns an audit with events that also writes the wanted parts. It allocates memory for the counts of the bus that it
    /// compares before and after an entry.
    pub fn with_events(alloc: Global, wanted: Wanted) -> Result<TextAudit, AllocError>
        ensures written { IfOk result (λ audit. HasWritten wanted [] [] audit) }
        ensures none { IfOk result (λ audit. held_events audit.events ≡ []) }
        ensures events { IfOk result (λ audit. has_events audit.events ≡ true) }
    {
        Ok(TextAudit {
            phase: Phase::Start,
            rooms: Rooms::new(alloc),
            events: Some(EventsText::new(alloc, wanted)?),
        })
    }

    /// Returns the text of the events that was not cleared, in complete lines. It begins with the line of the format and the line
    /// of the bus. A wrong entry and the lines after it add nothing.
    pub fn events(&self) -> &[u8]
        ensures { result.now ≡ held_events self.now.events }
    {
        match &self.events {
            Some(events) => events.text(),
            None => b"",
        }
    }

    /// Clears the text of the events so far.
    pub fn clear_events(&mut self)
        ensures phase { self.new.phase ≡ self.old.phase }
        ensures events { has_events self.new.events ≡ has_events self.old.events }
        ensures none { held_events self.new.events ≡ [] }
        ensures written { (w : AWanted) (text cleared : List ℕ) →
            HasWritten w text cleared self.old →
            HasWritten w text (cleared ++ held_events self.old.events) self.new }
    {
        if let Some(events) = &mut self.events {
            events.clear();
        }
    }

    /// Takes the next line of the text, including its LF if it has one. It reports a fault in the line at once; `finish` reports
    /// faults that concern the whole text. `NoMemory` means that an allocation failed, or that there are more than 4,294,967,295
    /// entries; the text may then be legal or not.
    pub fn carry(&mut self, alloc: Global, line: &[u8]) -> Result<(), ReadFault>
        ensures taken { OnOk result (TakesOn AreTaken self.old self.new line.now) }
        ensures fault { IfErr result (FailsNext AreTaken self.old line.now) }
        ensures failed { IfErr result (λ why. HasFailed why self.new) }
        ensures again { (why : AFault) → HasFailed why self.old → result ≡ Err why }
        ensures written { OnOk result ((w : AWanted) (cleared : List ℕ) →
            TakesOn (λ text audit. HasWritten w text cleared audit) self.old self.new line.now) }
        ensures held { IfErr result
            (λ why. held_events self.new.events ≡ held_events self.old.events) }
        ensures events { has_events self.new.events ≡ has_events self.old.events }
    {
        match self.take(alloc, line) {
            Ok(()) => Ok(()),
            Err(why) => self.fail(why),
        }
    }

    // Stores the fault of a line, and returns it.
    #[inline(never)]
    fn fail(&mut self, why: ReadFault) -> Result<(), ReadFault>
        ensures failed { HasFailed why self.new }
        ensures returned { result ≡ Err why }
        ensures events { self.new.events ≡ self.old.events }
    {
        self.phase = Phase::Failed(why);
        Err(why)
    }

    // Takes a line, unless an earlier line was faulty.
    fn take(&mut self, alloc: Global, line: &[u8]) -> Result<(), ReadFault>
        ensures taken { OnOk result (TakesOn AreTaken self.old self.new line.now) }
        ensures fault { IfErr result (FailsNext AreTaken self.old line.now) }
        ensures again { (why : AFault) → HasFailed why self.old → result ≡ Err why }
        ensures written { OnOk result ((w : AWanted) (cleared : List ℕ) →
            TakesOn (λ text audit. HasWritten w text cleared audit) self.old self.new line.now) }
        ensures held { IfErr result
            (λ why. held_events self.new.events ≡ held_events self.old.events) }
        ensures events { has_events self.new.events ≡ has_events self.old.events }
    {
        match &mut self.phase {
            Phase::Start => self.take_first(line),
            Phase::Front(version) => {
                let version = *version;
                self.take_second(alloc, version, line)
            }
            Phase::Entries(audit) => match &mut self.events {
                None => audit.carry(alloc, &mut self.rooms, line),
                Some(events) => events.carry(alloc, audit, &mut self.rooms, line),
            },
            Phase::Failed(why) => Err(*why),
        }
    }

    // Takes the first line, which names the version.
    #[inline(never)]
    fn take_first(&mut self, line: &[u8]) -> Result<(), ReadFault>
        ensures taken { OnOk result (IsLine line.now → AreTaken line.now self.new) }
        ensures fault { IfErr result (FailsAfter [] line.now) }
        ensures written { OnOk result (IsLine line.now → (w : AWanted) (cleared : List ℕ) →
            Completes self.old.events cleared [] → IsWantedAfter w self.old.events [] →
            HasWritten w line.now cleared self.new) }
        ensures events { self.new.events ≡ self.old.events }
    {
        self.phase = Phase::Front(first_version(line)?);
        Ok(())
    }

    // Takes the second line, which describes the bus.
    #[inline(never)]
    fn take_second(&mut self, alloc: Global, version: Version, line: &[u8]) -> Result<(), ReadFault>
        ensures taken { OnOk result
            (IsLine line.now → AreTaken (first_line version ++ line.now) self.new) }
        ensures fault { IfErr result (FailsAfter (first_line version) line.now) }
        ensures written { OnOk result (IsLine line.now → (w : AWanted) (cleared : List ℕ) →
            Completes self.old.events cleared [] → IsWantedAfter w self.old.events [] →
            HasWritten w (first_line version ++ line.now) cleared self.new) }
        ensures held { IfErr result
            (λ why. held_events self.new.events ≡ held_events self.old.events) }
        ensures events { has_events self.new.events ≡ has_events self.old.events }
    {
        let audit = EntryAudit::read(alloc, &mut self.rooms, version, line)?;
        begin_events(&mut self.events, line)?;
        self.phase = Phase::Entries(audit);
        Ok(())
    }

    /// Ends the text. Returns the lines for the rules that the bus accepts after the last entry, and for each removal of all rules.
    /// If the text of the events has a last line, the returned lines belong before it.
    pub fn last_rules(&mut self, alloc: Global) -> Result<Vec<u8>, AllocError>
        ensures lines { IfOk result (λ lines. lines.items ≡ rules_last self.old.events) }
        ensures phase { self.new.phase ≡ self.old.phase }
    {
        let mut lines = Vec::new(alloc);
        if let Some(events) = &mut self.events {
            events.put_last_rules(&mut lines)?;
        }
        Ok(lines)
    }

    /// Ends the text, and returns the number of entries in its record if the record is legal.
    pub fn finish(self) -> Result<usize, TextFault>
        ensures told { (text : List ℕ) → AreTaken text self → Reports text result }
        ensures again { (why : AFault) → HasFailed why self → result ≡ Err (TextFault.Read why) }
        ensures events { (w : AWanted) (text cleared : List ℕ) (held : Option AnEventsText) →
            AreWritten w text cleared self.phase held →
            IfOk result (EndsEvents w held text cleared) }
        ensures wrong { (w : AWrongLine) → result ≡ Err (TextFault.Wrong w) →
            wrong_so_far self.phase ≡ Some w }
    {
        let TextAudit { phase, .. } = self;
        match phase {
            Phase::Start => Err(TextFault::Read(ReadFault::BadVersion)),
            Phase::Front(_) => Err(TextFault::Read(ReadFault::BadLine(2))),
            Phase::Entries(audit) => audit.finish(),
            Phase::Failed(why) => Err(TextFault::Read(why)),
        }
    }

    /// Ends a text that may be cut off. If its record is legal so far, the result says whether the text is complete and how many
    /// entries it contains. `torn` contains the bytes after the last LF, which were not taken. If the text is cut off, these bytes
    /// are not examined. A text that is cut off within its first two lines is faulty.
    pub fn finish_cut(self, torn: &[u8]) -> Result<Cut, TextFault>
        ensures told { (text : List ℕ) →
            AreTaken text self → EndsNoLine torn.now → ReportsCut (text ++ torn.now) result }
        ensures again { (why : AFault) → HasFailed why self → result ≡ Err (TextFault.Read why) }
        ensures events { (w : AWanted) (text cleared : List ℕ) (held : Option AnEventsText) →
            AreWritten w text cleared self.phase held → EndsNoLine torn.now →
            IfOk result (EndsCutEvents w held (text ++ torn.now) cleared) }
        ensures wrong { (w : AWrongLine) → result ≡ Err (TextFault.Wrong w) →
            wrong_so_far self.phase ≡ Some w }
    {
        let TextAudit { phase, .. } = self;
        match phase {
            Phase::Start => Err(TextFault::Read(ReadFault::BadVersion)),
            Phase::Front(_) => Err(TextFault::Read(ReadFault::BadLine(2))),
            Phase::Entries(audit) => audit.finish_cut(torn),
            Phase::Failed(why) => Err(TextFault::Read(why)),
        }
    }

    /// Returns the bus of the record if the line that describes the bus was taken and no line was faulty.
    pub fn bus(&self) -> Option<BusConfig>
        ensures { result ≡ bus_taken self.now.phase }
    {
        match &self.phase {
            Phase::Entries(audit) => Some(audit.config()),
            _ => None,
        }
    }

    /// Returns the first line if it was taken and no line was faulty, and otherwise an empty slice.
    pub fn first_line(&self) -> &'static [u8]
        ensures { result.now ≡ first_taken self.now.phase }
    {
        match &self.phase {
            Phase::Front(version) => version.first_line(),
            Phase::Entries(audit) => audit.first_line(),
            Phase::Start | Phase::Failed(_) => b"",
        }
    }

    /// Returns whether the end line was taken. No line may follow the end line.
    pub fn has_end_line(&self) -> bool
        ensures { result ≡ has_end_line self.now.phase }
    {
        match &self.phase {
            Phase::Entries(audit) => audit.has_end_line(),
            _ => false,
        }
    }
}

// Writes the lines that precede the events of the entries, if the audit writes events. `line` is the second line of the text.
fn begin_events(events: &mut Option<EventsText>, line: &[u8]) -> Result<(), ReadFault>
    ensures begun { OnOk result ((cleared : List ℕ) → Completes events.old cleared [] →
        Completes events.new cleared
        (events_first_line ++ line.now ++ rules_first events.new)) }
    ensures held { IfErr result (λ why. held_events events.new ≡ held_events events.old) }
    ensures memory { IfErr result (λ why. why ≡ ReadFault.NoMemory) }
    ensures kind { has_events events.new ≡ has_events events.old }
    ensures wanted { (w : AWanted) → IsWantedAfter w events.old [] → IsWantedAfter w events.new [] }
{
    match events {
        None => Ok(()),
        Some(text) => match text.begin(line) {
            Ok(()) => Ok(()),
            Err(_) => Err(ReadFault::NoMemory),
        },
    }
}

// Returns the version that the first line names.
fn first_version(line: &[u8]) -> Result<Version, ReadFault>
    ensures found { IfOk result (λ v. StartsWith (first_line v) line.now) }
    ensures only { IfErr result (λ why. (why ≡ ReadFault.BadVersion) × LacksFirst line.now) }
{
    read_version(line).ok_or(ReadFault::BadVersion)
}
