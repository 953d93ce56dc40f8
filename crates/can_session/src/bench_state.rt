ghost use Rattle.std.specs.Prelude.{◌≡◌, ◌≢◌, [], ◌↔◌, Some, None, Err, true, false, OnOk, IfOk, IfErr, MatchBool};
ghost use Rattle.can_event.specs.declared.event.Event.TheVariants as event;
ghost use Rattle.can_bus.specs.Headline.{Headline};
ghost use Rattle.can_bus.specs.Legal.{IsLegal};
ghost use Rattle.can_session.specs.Runs.{IsBench, IsRecordOfBench, IsStartFault, at_start_with};
ghost use Rattle.can_session.specs.Orders.{order_of};
ghost use Rattle.can_session.specs.Benches.{session_at, Speaks, IsStarted, IsTriedIf, IsRun, IsWrongRun, IsInjected, IsWrongRule, IsCarriedOut, IsRefused, IsLeftBy};
ghost use Rattle.can_session.specs.Benches.{AreMade, is_attempt_due, said_moment, said_decision, passed};
ghost use Rattle.can_session.specs.Benches.{IsChanged, IsWrongChange, change_line, is_good_change};
ghost use Rattle.can_session.specs.inner.Acts.{done_by, noted, noted_by, Puts};

use crate::attempt_lines::put_attempt;
use crate::bench_run::BenchFault;
use crate::bench_start::{make_bus, no_sessions, the_start};
use crate::bus_port::BusPort;
use crate::ignored_input::IgnoredInput;
use crate::line_prefix::{begin_output, end_output};
use crate::order::{Order, SessionNumber, read_order};
use crate::timed_attempts::first_schedule;
use crate::turns::{self, Act, BenchPort};
use can_bus::{Attempt, BusConfig, Record, Refusal};
use can_dialog::Session;
use can_event::MAX_RX_CAPACITY;
use can_fault::{FaultSource, Verdict};
use can_frame::{Moment, Names};
use can_rules::{Decision, Plan, RuleRefusal};
use can_wire::Timing;
use std::alloc::{AllocError, Global};
use std::marker::Model;

/// One bus with up to 64 sessions, and the current moment. `take_lines` carries out lines on a bench.
#[derive(Drop)]
pub struct Bench {
    alloc: Global,
    port: BenchPort,
    capacity: u32,
    shows_faults: bool,
    sessions: Vec<Option<Session>>,
    moment: Moment,
    ignored: IgnoredInput,
}

impl Model for Bench {
    ghost use Rattle.std.specs.Prelude.{◌≡◌, length};
    ghost use Rattle.std.specs.Coded.{codes};
    ghost use Rattle.can_fault.specs.Sources.{verdict_map_code};
    ghost use Rattle.can_session.specs.Benches.{BenchState};

    ghost Value = { BenchState };

    ghost coded = { Prim.hlevel (codes, verdict_map_code) };

    ghost view = { λ s. record {
      capacity = s.capacity;
      shows_faults = s.shows_faults;
      bus = s.port;
      sessions = s.sessions.items;
      moment = s.moment;
      ignored = s.ignored;
    } };

    ghost invariant = { λ s. length s.sessions.items ≡ 64 };
}

impl Bench {
    /// Returns a bench before its first line.
    pub fn new(
        alloc: Global,
        names: Names,
        config: BusConfig,
        capacity: u32,
        timing: Option<Timing>,
        shows_faults: bool,
        plan: Plan,
    ) -> Result<Bench, BenchFault>
        ensures made { IfOk result (λ s.
            s ≡ at_start_with shows_faults plan timing names config capacity) }
        ensures good { OnOk result (IsBench names config capacity) }
        ensures bad { (result ≡ Err BenchFault.BadConfig) ↔ (¬ IsBench names config capacity) }
        ensures faults { IfErr result IsStartFault }
    {
        if config.ifaces != names.count() || capacity < 1 || capacity > MAX_RX_CAPACITY {
            return Err(BenchFault::BadConfig);
        }
        let bus = make_bus(alloc, config)?;
        let Ok(sessions) = no_sessions(alloc) else {
            return Err(BenchFault::NoMemory);
        };
        Ok(Bench {
            alloc,
            port: BusPort::with_plan(alloc, names, bus, plan, first_schedule(timing)),
            capacity,
            shows_faults,
            sessions,
            moment: the_start(),
            ignored: IgnoredInput::none(),
        })
    }

    /// Returns which sessions had input outside messages.
    pub fn ignored(&self) -> IgnoredInput
        ensures { result ≡ self.now.ignored }
    {
        self.ignored
    }

    /// Returns the record of the bus so far.
    pub fn record(&self) -> &Record
        ensures record { IsRecordOfBench result.now self.now }
        ensures legal { IsLegal result.now.config result.now.history }
    {
        self.port.bus().record()
    }

    /// Returns the names of the interfaces.
    pub fn names(&self) -> &Names
        ensures { result.now ≡ self.now.bus.names }
    {
        self.port.names()
    }

    /// Returns the record of the bus.
    pub fn into_record(self) -> Record
        ensures record { IsRecordOfBench result self }
        ensures legal { IsLegal result.config result.history }
        ensures headline { Headline result.config result.history }
    {
        let Bench { port, .. } = self;
        port.into_bus().into_record()
    }

    /// Carries out a line and puts its output into `said`. Returns whether the line was valid. An invalid line leaves the bench
    /// unchanged, except that a change that the bus refused is recorded.
    pub fn take_line<F: FaultSource>(
        &mut self,
        script: &mut F,
        line: &[u8],
        said: &mut Vec<u8>,
    ) -> Result<bool, AllocError>
        ensures line { IfOk result (λ good. MatchBool good
            (IsCarriedOut (F.verdicts script.old) line.now self.old said.new.items self.new)
            (IsRefused (order_of line.now) self.old)) }
        ensures left { IfOk result (λ good. good ≡ false → IsLeftBy self.old self.new) }
        ensures keeps { F.verdicts script.new ≡ F.verdicts script.old }
    {
        said.clear();
        let Some(order) = read_order(line) else {
            return Ok(false);
        };
        match order {
            Order::Nothing => Ok(true),
            Order::At(moment) => {
                self.set_moment(moment);
                Ok(true)
            }
            Order::Session(session) => self.start(session, said),
            Order::Feed(session, bytes) => self.run_act(session, Act::Feed(bytes), said),
            Order::Drain(session) => self.run_act(session, Act::Drain, said),
            Order::End(session) => self.run_act(session, Act::End, said),
            Order::Attempt => {
                self.attempt(script, said)?;
                Ok(true)
            }
            Order::Run(moment) => self.run(script, moment, said),
            Order::Fault(rule) => self.inject(rule),
            Order::Down(name) => self.take_down(name, said),
            Order::Up(name) => self.bring_up(name, said),
        }
    }

    /// Performs one act of a session and appends the session's number and output. Returns false if the session was not started.
    #[inline(always)]
    fn run_act(
        &mut self,
        session: SessionNumber,
        act: Act<'_>,
        said: &mut Vec<u8>,
    ) -> Result<bool, AllocError>
        requires { said.old.items ≡ [] }
        ensures spoke { IfOk result (λ good. MatchBool good
            (Speaks (done_by act.entry self.old.moment) session (noted act.entry session self.old)
            said.new.items self.new)
            (session_at self.old session ≡ Some None)) }
        ensures same { IfOk result (λ good. good ≡ false → self.new ≡ self.old) }
    {
        match &mut self.sessions[session.place()] {
            None => Ok(false),
            Some(speaker) => {
                note(&mut self.ignored, session, act);
                let begun = begin_output(said, session)?;
                turns::carry_out(speaker, self.alloc, act, self.moment, &mut self.port, said)?;
                end_output(said, begun)?;
                Ok(true)
            }
        }
    }

    /// Starts a session. Returns false if the session was started before.
    fn start(&mut self, session: SessionNumber, said: &mut Vec<u8>) -> Result<bool, AllocError>
        requires { said.old.items ≡ [] }
        ensures started { IfOk result (λ good. MatchBool good
            (IsStarted session self.old said.new.items self.new)
            (session_at self.old session ≢ Some None)) }
        ensures same { IfOk result (λ good. good ≡ false → self.new ≡ self.old) }
    {
        let place = session.place();
        if self.sessions[place].is_some() {
            return Ok(false);
        }
        let speaker = turns::start_session(self.alloc, self.capacity, session, said)?;
        self.sessions[place] = Some(speaker);
        Ok(true)
    }

    /// Sets the moment.
    fn set_moment(&mut self, moment: Moment)
        ensures { self.new ≡ record self.old { moment = moment } }
    {
        self.moment = moment;
    }

    /// Adds a fault rule to the bus. Returns whether the rule was accepted.
    fn inject(&mut self, rule: &[u8]) -> Result<bool, AllocError>
        ensures taken { IfOk result (λ good. MatchBool good
            (IsInjected rule.now self.old self.new) (IsWrongRule rule.now self.old)) }
        ensures same { IfOk result (λ good. good ≡ false → self.new ≡ self.old) }
    {
        let Err(refusal) = self.port.take_rule(rule) else {
            return Ok(true);
        };
        match refusal {
            RuleRefusal::NoMemory => Err(AllocError),
            _ => Ok(false),
        }
    }

    /// Takes the interface with this name down at the current moment. Returns false if there is no such interface or if the bus
    /// refuses. If the record is full, appends `record full` and returns true.
    fn take_down(&mut self, name: &[u8], said: &mut Vec<u8>) -> Result<bool, AllocError>
        requires { said.old.items ≡ [] }
        ensures changed { IfOk result (λ good. MatchBool good
            (IsChanged event.Down name.now self.old said.new.items self.new)
            (IsWrongChange event.Down name.now self.old)) }
        ensures left { IfOk result (λ good. good ≡ false → IsLeftBy self.old self.new) }
    {
        let Some(iface) = self.port.find(name) else {
            return Ok(false);
        };
        let outcome = self.port.take_down(iface, self.moment);
        put_change(said, outcome)
    }

    /// Restarts the interface with this name at the current moment, if the interface is bus off or down. Returns false if there is
    /// no such interface or if the bus refuses. If the record is full, appends `record full` and returns true.
    fn bring_up(&mut self, name: &[u8], said: &mut Vec<u8>) -> Result<bool, AllocError>
        requires { said.old.items ≡ [] }
        ensures changed { IfOk result (λ good. MatchBool good
            (IsChanged event.Restart name.now self.old said.new.items self.new)
            (IsWrongChange event.Restart name.now self.old)) }
        ensures left { IfOk result (λ good. good ≡ false → IsLeftBy self.old self.new) }
    {
        let Some(iface) = self.port.find(name) else {
            return Ok(false);
        };
        let outcome = self.port.bring_up(iface, self.moment);
        put_change(said, outcome)
    }

    /// Makes the next attempt to send a frame on the bus and appends its line. Returns whether the bus made the attempt.
    fn attempt<F: FaultSource>(
        &mut self,
        script: &mut F,
        said: &mut Vec<u8>,
    ) -> Result<bool, AllocError>
        ensures tried { IfOk result (λ is_made. Puts (IsTriedIf is_made (F.verdicts script.old))
            self.old said.old.items self.new said.new.items) }
        ensures keeps { F.verdicts script.new ≡ F.verdicts script.old }
    {
        let source = script.verdict(self.port.next_attempt());
        let waits = self.port.waits_in_time();
        let moment = self.port.next_moment(self.moment, waits);
        let when = self.said_moment(moment);
        let (decision, outcome) = self.port.attempt(moment, source);
        let shown = self.said_decision(decision);
        put_attempt(said, self.port.names(), when, shown, &outcome)?;
        self.pass(waits, decision.verdict, &outcome);
        Ok(outcome.is_ok())
    }

    /// Makes all attempts that are due before a moment, and then sets the current moment to it. Returns false if the bus has no bit
    /// rates or if the moment is in the past.
    fn run<F: FaultSource>(
        &mut self,
        script: &mut F,
        moment: Moment,
        said: &mut Vec<u8>,
    ) -> Result<bool, AllocError>
        requires { said.old.items ≡ [] }
        ensures runs { IfOk result (λ good. MatchBool good
            (IsRun (F.verdicts script.old) moment self.old said.new.items self.new)
            (IsWrongRun moment self.old)) }
        ensures same { IfOk result (λ good. good ≡ false → self.new ≡ self.old) }
        ensures keeps { F.verdicts script.new ≡ F.verdicts script.old }
    {
        if !self.port.is_timed() || moment.micros() < self.moment.micros() {
            return Ok(false);
        }
        self.make_due(script, moment, said)?;
        self.set_moment(moment);
        Ok(true)
    }

    /// Makes all attempts that are due before a moment. It stops early if the bus refuses an attempt.
    fn make_due<F: FaultSource>(
        &mut self,
        script: &mut F,
        moment: Moment,
        said: &mut Vec<u8>,
    ) -> Result<(), AllocError>
        ensures made { OnOk result (Puts (AreMade (F.verdicts script.old) moment)
            self.old said.old.items self.new said.new.items) }
        ensures keeps { F.verdicts script.new ≡ F.verdicts script.old }
    {
        while self.is_due(moment) {
            if !self.attempt(script, said)? {
                return Ok(());
            }
        }
        Ok(())
    }

    /// Returns whether another attempt is due: it would begin before this moment, and there is a frame to send or an interface
    /// waits for its restart in time.
    fn is_due(&self, moment: Moment) -> bool
        ensures { result ≡ is_attempt_due moment self.now }
    {
        self.port.begins_before(self.moment, moment)
            && (self.port.next_head().is_some() || self.port.waits_in_time())
    }

    /// Returns the moment to show in the line of an attempt, or `None` if the bus has no bit rates.
    fn said_moment(&self, moment: Moment) -> Option<Moment>
        ensures { result ≡ said_moment self.now.bus.schedule moment }
    {
        if self.port.is_timed() {
            Some(moment)
        } else {
            None
        }
    }

    /// Returns the decision to show in the line of an attempt, or `None` if faults are not shown.
    fn said_decision(&self, decision: Decision) -> Option<Decision>
        ensures { result ≡ said_decision self.now.shows_faults decision }
    {
        if self.shows_faults {
            Some(decision)
        } else {
            None
        }
    }

    /// Advances the current moment by the time that an attempt took. `waits` is true if an interface was waiting for its restart in
    /// time before the attempt.
    fn pass(&mut self, waits: bool, verdict: Verdict, outcome: &Result<Attempt, Refusal>)
        ensures { self.new ≡ passed waits verdict outcome.now self.old }
    {
        let Ok(attempt) = outcome else {
            return;
        };
        if let Some(moment) = self.port.pass_time(self.moment, waits, verdict, attempt) {
            self.moment = moment;
        }
    }
}

/// Appends `record full` if a full record prevented a change of an interface. Returns true in this case and if the change was made.
/// Returns false if the bus refused the change for another reason.
fn put_change(said: &mut Vec<u8>, outcome: Result<(), Refusal>) -> Result<bool, AllocError>
    requires { said.old.items ≡ [] }
    ensures good { IfOk result (λ good. good ≡ is_good_change outcome) }
    ensures said { IfOk result (λ good. good ≡ true → said.new.items ≡ change_line outcome) }
{
    match outcome {
        Ok(()) => Ok(true),
        Err(Refusal::RecordFull) => {
            said.extend_from_slice(b"record full\n")?;
            Ok(true)
        }
        Err(_) => Ok(false),
    }
}

/// Records the bytes that an act feeds to a session.
fn note(ignored: &mut IgnoredInput, session: SessionNumber, act: Act<'_>)
    ensures { ignored.new ≡ noted_by act.entry session ignored.old }
{
    match act {
        Act::Feed(bytes) => ignored.hear(session, bytes),
        Act::Drain | Act::End => {}
    }
}
