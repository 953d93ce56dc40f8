ghost use Rattle.std.specs.Prelude.{◌≡◌, ◌↔◌, ◌+◌, ◌-◌, ◌^◌, ◌<◌, ◌++◌, [], Err, IfErr, IfOk, IsSome, IsTrue, List, None, OnOk, Some, false, true, ℕ};
ghost use Rattle.can_event.specs.declared.entry.Entry.{Entry as AnEntry};
ghost use Rattle.can_record_text.specs.Spelling.{entry_line, first_line, both_needs};
ghost use Rattle.can_record_text.specs.Values.{HasLine};
ghost use Rattle.can_record_text.specs.inner.Reading.{SeemsToBe};
ghost use Rattle.can_replay.specs.declared.text_fault.WrongLine.{WrongLine as AWrongLine};
ghost use Rattle.can_replay.specs.EventTexts.{IsReached, IsReadAs, IsWhole, is_legal_yet};
ghost use Rattle.can_replay.specs.TextAudits.{EndsNoLine, FailsAfter, FailsNext, IsLine, TakesOn, Reports, ReportsCut};
ghost use Rattle.can_replay.specs.inner.EntryAudits.{IsBegun, IsGoing};
ghost use Rattle.can_replay.specs.inner.Steps.{ReportsWrong, IsUnended, IsEndLine, Takes};

use crate::text_fault::{Cut, TextFault, WrongLine};
use can_bus::{BusConfig, Entry, Event, LeanRingBus, Refusal, Reply};
use can_record_text::ReadFault;
use can_record_text::event_reading::{attempt_front, guess_event, receive_front, send_front};
use can_record_text::fault::Unread;
use can_record_text::lines::{begins, is_line_of, put_end, read_bus, read_line};
use can_record_text::needs::Needs;
use can_record_text::rooms::Rooms;
use can_record_text::version::Version;
use std::alloc::Global;

/// The state of an audit after the second line: what is known from the lines taken so far.
#[derive(Drop)]
pub struct EntryAudit {
    version: Version,
    config: BusConfig,
    /// The bus. It carries out the entries for as long as they are legal.
    bus: LeanRingBus,
    count: u32,
    /// The features used by the entries that older versions of the text do not have.
    needs: Needs,
    wrong: Option<WrongLine>,
    is_ended: bool,
}

impl EntryAudit {
    /// Reads the second line, which describes the bus.
    pub fn read(
        alloc: Global,
        rooms: &mut Rooms,
        version: Version,
        line: &[u8],
    ) -> Result<EntryAudit, ReadFault>
        ensures taken { IfOk result (λ audit. IsLine line.now → IsBegun version line.now audit) }
        ensures fault { IfErr result (FailsAfter (first_line version) line.now) }
    {
        let config = match read_bus(&mut rooms.long, version, line) {
            Ok(config) => config,
            Err(Unread::Bad) => return Err(ReadFault::BadLine(2)),
            Err(Unread::NoMemory) => return Err(ReadFault::NoMemory),
        };
        let Ok(bus) = LeanRingBus::new(alloc, config) else {
            return Err(ReadFault::NoMemory);
        };
        Ok(EntryAudit {
            version,
            config,
            bus,
            count: 0,
            needs: Needs::nothing(),
            wrong: None,
            is_ended: false,
        })
    }

    /// Takes the next line, which is an entry or the end line. No line may follow the end line.
    pub fn carry(&mut self, alloc: Global, rooms: &mut Rooms, line: &[u8]) -> Result<(), ReadFault>
        ensures taken { OnOk result (TakesOn IsGoing self.old self.new line.now) }
        ensures fault { IfErr result (FailsNext IsGoing self.old line.now) }
    {
        if self.is_ended {
            return Err(ReadFault::BadLine(u64::from(self.count) + 4));
        }
        if self.count == u32::MAX {
            return Err(ReadFault::NoMemory);
        }
        match self.carry_entry(alloc, rooms, line) {
            Ok(()) => Ok(()),
            Err(Unread::Bad) => self.end(rooms, line),
            Err(Unread::NoMemory) => Err(ReadFault::NoMemory),
        }
    }

    // Takes the line of one entry.
    fn carry_entry(&mut self, alloc: Global, rooms: &mut Rooms, line: &[u8]) -> Result<(), Unread>
        requires { self.old.count < 2 ^ 32 - 1 }
        ensures { Takes self.old self.new line.now result }
    {
        if self.wrong.is_some() {
            self.read_on(alloc, rooms, line)
        } else {
            self.carry_out(alloc, rooms, line)
        }
    }

    // Takes the line of one entry, given that all entries before it are legal.
    fn carry_out(&mut self, alloc: Global, rooms: &mut Rooms, line: &[u8]) -> Result<(), Unread>
        requires legal { self.old.wrong ≡ None }
        requires few { self.old.count < 2 ^ 32 - 1 }
        ensures { Takes self.old self.new line.now result }
    {
        match receive_front(line) {
            Some(id) => self.carry_event(alloc, rooms, &Event::Receive(id), line),
            None => self.carry_attempt(alloc, rooms, line),
        }
    }

    // Does the same as `carry_out` for a line that is not a receive.
    #[inline(never)]
    fn carry_attempt(&mut self, alloc: Global, rooms: &mut Rooms, line: &[u8]) -> Result<(), Unread>
        requires legal { self.old.wrong ≡ None }
        requires few { self.old.count < 2 ^ 32 - 1 }
        ensures { Takes self.old self.new line.now result }
    {
        match attempt_front(line) {
            Some((moment, verdict)) => {
                self.carry_event(alloc, rooms, &Event::Attempt(moment, verdict), line)
            }
            None => self.carry_send(alloc, rooms, line),
        }
    }

    // Does the same as `carry_out` for a line that is neither a receive nor an attempt.
    #[inline(never)]
    fn carry_send(&mut self, alloc: Global, rooms: &mut Rooms, line: &[u8]) -> Result<(), Unread>
        requires legal { self.old.wrong ≡ None }
        requires few { self.old.count < 2 ^ 32 - 1 }
        ensures { Takes self.old self.new line.now result }
    {
        match send_front(line) {
            Some((id, frame)) => self.carry_event(alloc, rooms, &Event::Send(id, frame), line),
            None => self.carry_other(alloc, rooms, line),
        }
    }

    // Does the same as `carry_out` for a line of any kind.
    #[inline(never)]
    fn carry_other(&mut self, alloc: Global, rooms: &mut Rooms, line: &[u8]) -> Result<(), Unread>
        requires legal { self.old.wrong ≡ None }
        requires few { self.old.count < 2 ^ 32 - 1 }
        ensures { Takes self.old self.new line.now result }
    {
        match guess_event(alloc, line) {
            Ok((event, _)) => self.carry_event(alloc, rooms, &event, line),
            Err(why) => Err(why),
        }
    }

    // Takes a line that appears to be an entry of this event, given that all entries before it are legal. It compares the line with
    // the line that is written for the event and the bus's reply.
    fn carry_event(
        &mut self,
        alloc: Global,
        rooms: &mut Rooms,
        event: &Event,
        line: &[u8],
    ) -> Result<(), Unread>
        requires legal { self.old.wrong ≡ None }
        requires few { self.old.count < 2 ^ 32 - 1 }
        requires seems { SeemsToBe line.now event.now }
        ensures { Takes self.old self.new line.now result }
    {
        let reply = self.bus.answer(alloc, event);
        if is_past_limit(&reply) {
            return self.report_wrong_past(alloc, rooms, line);
        }
        if !reply.enters() {
            return Err(Unread::NoMemory);
        }
        match is_line_of(rooms, event, &reply, line) {
            Ok(true) => {}
            Ok(false) => return self.report_wrong_reply(alloc, rooms, line, reply),
            Err(_) => return Err(Unread::NoMemory),
        }
        let needs = Needs::of(event, &reply);
        if !self.version.takes(needs) {
            return Err(Unread::Bad);
        }
        self.add(needs);
        Ok(())
    }

    // Reports the first line that exceeds the limit of entries.
    #[inline(never)]
    fn report_wrong_past(
        &mut self,
        alloc: Global,
        rooms: &mut Rooms,
        line: &[u8],
    ) -> Result<(), Unread>
        requires legal { self.old.wrong ≡ None }
        requires few { self.old.count < 2 ^ 32 - 1 }
        ensures { ReportsWrong self.old self.new line.now None result }
    {
        self.report_wrong(alloc, rooms, line, None)
    }

    // Reports the first line whose reply differs from this legal reply.
    #[inline(never)]
    fn report_wrong_reply(
        &mut self,
        alloc: Global,
        rooms: &mut Rooms,
        line: &[u8],
        legal: Reply,
    ) -> Result<(), Unread>
        requires legal { self.old.wrong ≡ None }
        requires few { self.old.count < 2 ^ 32 - 1 }
        ensures { ReportsWrong self.old self.new line.now (Some legal) result }
    {
        self.report_wrong(alloc, rooms, line, Some(legal))
    }

    // Reports the first line whose entry is not legal.
    fn report_wrong(
        &mut self,
        alloc: Global,
        rooms: &mut Rooms,
        line: &[u8],
        legal: Option<Reply>,
    ) -> Result<(), Unread>
        requires legal { self.old.wrong ≡ None }
        requires few { self.old.count < 2 ^ 32 - 1 }
        ensures { ReportsWrong self.old self.new line.now legal result }
    {
        let entry = read_line(&mut rooms.long, alloc, self.version, self.config, line)?;
        let needs = Needs::of(&entry.event, &entry.reply);
        let place = self.count as usize;
        self.add(needs);
        self.wrong = Some(WrongLine {
            place,
            entry,
            legal,
            limit: self.config.limit,
        });
        Ok(())
    }

    // Takes the line of an entry that follows a wrong entry.
    #[inline(never)]
    fn read_on(&mut self, alloc: Global, rooms: &mut Rooms, line: &[u8]) -> Result<(), Unread>
        requires wrong { IsSome self.old.wrong }
        requires few { self.old.count < 2 ^ 32 - 1 }
        ensures { Takes self.old self.new line.now result }
    {
        let entry = read_line(&mut rooms.long, alloc, self.version, self.config, line)?;
        self.add(Needs::of(&entry.event, &entry.reply));
        Ok(())
    }

    // Counts one more entry, and adds the features that the entry needs.
    fn add(&mut self, needs: Needs)
        requires { self.old.count < 2 ^ 32 - 1 }
        ensures { self.new
            ≡ record self.old {
              count = self.old.count + 1;
              needs = both_needs self.old.needs needs;
            } }
    {
        self.count += 1;
        self.needs = self.needs.and(needs);
    }

    // Takes the end line.
    fn end(&mut self, rooms: &mut Rooms, line: &[u8]) -> Result<(), ReadFault>
        ensures ended { OnOk result (self.new ≡ record self.old { is_ended = true }) }
        ensures line { OnOk result (IsEndLine self.old.count line.now) }
        ensures fault { IfErr result (λ why. IsUnended self.old.count line.now why) }
        ensures few { self.old.count < 2 ^ 64 }
    {
        rooms.long.clear();
        match put_end(&mut rooms.long, u64::from(self.count)) {
            Ok(()) => {}
            Err(_) => return Err(ReadFault::NoMemory),
        }
        if !begins(line, &rooms.long) {
            return Err(ReadFault::BadLine(u64::from(self.count) + 3));
        }
        self.is_ended = true;
        Ok(())
    }

    /// Returns the configuration of the bus.
    pub fn config(&self) -> BusConfig
        ensures { result ≡ self.now.config }
    {
        self.config
    }

    /// Returns the first line, which names the version.
    pub fn first_line(&self) -> &'static [u8]
        ensures { result.now ≡ first_line self.now.version }
    {
        self.version.first_line()
    }

    /// Returns whether the end line was taken.
    pub fn has_end_line(&self) -> bool
        ensures { result ≡ self.now.is_ended }
    {
        self.is_ended
    }

    /// Returns whether the text has no end line and no wrong entry so far.
    pub fn is_legal_yet(&self) -> bool
        ensures { result ≡ is_legal_yet self.now }
    {
        !self.is_ended && self.wrong.is_none()
    }

    /// Returns the bus. It has carried out the entries for as long as they were legal.
    pub fn bus(&self) -> &LeanRingBus
        ensures { result.now ≡ self.now.bus }
    {
        &self.bus
    }

    /// Reads the entry of a line that was taken before.
    pub fn read_again(&self, alloc: Global, rooms: &mut Rooms, line: &[u8]) -> Result<Entry, Unread>
        ensures { (e : AnEntry) → HasLine self.now.version self.now.config e →
            line.now ≡ entry_line e [] → IsReadAs e result }
    {
        read_line(&mut rooms.long, alloc, self.version, self.config, line)
    }

    /// Ends the text, and returns the number of its entries if all of them are legal.
    pub fn finish(self) -> Result<usize, TextFault>
        ensures found { (text : List ℕ) → IsGoing text self → Reports text result }
        ensures whole { (text : List ℕ) (g : IsGoing text self) →
            IfOk result (IsWhole text self g) }
        ensures wrong { (w : AWrongLine) → result ≡ Err (TextFault.Wrong w) → self.wrong ≡ Some w }
    {
        let EntryAudit {
            version,
            count,
            needs,
            wrong,
            is_ended,
            ..
        } = self;
        if !is_ended {
            return Err(TextFault::Read(ReadFault::BadLine(u64::from(count) + 3)));
        }
        if version.is_needless(needs) {
            return Err(TextFault::Read(ReadFault::BadVersion));
        }
        match wrong {
            None => Ok(count as usize),
            Some(wrong) => Err(TextFault::Wrong(wrong)),
        }
    }

    /// Ends a text that may be cut off. The bytes `torn` come after the last line that was taken. They contain no LF.
    pub fn finish_cut(self, torn: &[u8]) -> Result<Cut, TextFault>
        ensures found { (text : List ℕ) →
            IsGoing text self → EndsNoLine torn.now → ReportsCut (text ++ torn.now) result }
        ensures reached { (text : List ℕ) (g : IsGoing text self) → EndsNoLine torn.now →
            IfOk result (IsReached text torn.now self g) }
        ensures wrong { (w : AWrongLine) → result ≡ Err (TextFault.Wrong w) → self.wrong ≡ Some w }
    {
        if self.is_ended {
            self.finish_whole(torn)
        } else {
            self.finish_off(torn)
        }
    }

    // Does the same as `finish_cut` for a text with an end line, after which no bytes may follow.
    fn finish_whole(self, torn: &[u8]) -> Result<Cut, TextFault>
        requires { self.is_ended ≡ true }
        ensures found { (text : List ℕ) → IsGoing text self → ReportsCut (text ++ torn.now) result }
        ensures reached { (text : List ℕ) (g : IsGoing text self) →
            IfOk result (IsReached text torn.now self g) }
        ensures wrong { (w : AWrongLine) → result ≡ Err (TextFault.Wrong w) → self.wrong ≡ Some w }
    {
        if !torn.is_empty() {
            return Err(TextFault::Read(ReadFault::BadLine(u64::from(self.count) + 4)));
        }
        match self.finish() {
            Ok(count) => Ok(Cut::Whole(count)),
            Err(why) => Err(why),
        }
    }

    // Does the same as `finish_cut` for a text without an end line.
    fn finish_off(self, torn: &[u8]) -> Result<Cut, TextFault>
        requires { self.is_ended ≡ false }
        ensures found { (text : List ℕ) →
            IsGoing text self → EndsNoLine torn.now → ReportsCut (text ++ torn.now) result }
        ensures reached { (text : List ℕ) (g : IsGoing text self) → EndsNoLine torn.now →
            IfOk result (IsReached text torn.now self g) }
        ensures wrong { (w : AWrongLine) → result ≡ Err (TextFault.Wrong w) → self.wrong ≡ Some w }
    {
        let EntryAudit { count, wrong, .. } = self;
        match wrong {
            None => Ok(Cut::Off(count as usize)),
            Some(first) => Err(TextFault::Wrong(first)),
        }
    }
}

/// Returns whether the bus refused the event because the record was full.
fn is_past_limit(reply: &Reply) -> bool
    ensures { IsTrue result ↔ (reply.now ≡ Reply.Refused Refusal.RecordFull) }
{
    matches!(reply, Reply::Refused(Refusal::RecordFull))
}
