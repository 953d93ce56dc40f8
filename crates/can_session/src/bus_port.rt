ghost use Rattle.std.specs.Prelude.{◌≡◌, None, is_some, option_map};
ghost use Rattle.can_bus.specs.Answer.{Answers};
ghost use Rattle.can_frame.specs.Names.{place_of};
ghost use Rattle.can_record.specs.Outcomes.{done_reply};
ghost use Rattle.can_event.specs.declared.reply.Reply.TheVariants as reply;
ghost use Rattle.can_event.specs.declared.event.Event.TheVariants as event;
ghost use Rattle.can_rules.specs.Plans.{no_plan, Injected};
ghost use Rattle.can_session.specs.BusSteps.{next_number_on, head_on, waits_in_time, verdict_on, decision_on, plan_left, passed_on};
ghost use Rattle.can_session.specs.Wires.{attempt_moment, begins_before, free_at, schedule_left};

use crate::timed_attempts::{load_at, moment_on, note_attempt, set_to};
use can_arbiter::Arbiter;
use can_bus::{
    Attempt, Bus, Event, IfaceStats, Pending, Received, Refusal, Reply, SocketId, SocketStats,
};
use can_confine::Counters;
use can_dialog::{Port, PortRefusal, put_names, rule_reply};
use can_fault::Verdict;
use can_frame::{Frame, Iface, Moment, Names};
use can_proto::BusLoad;
use can_queue::BoundedQueue;
use can_rules::{Decision, Plan, RuleRefusal};
use can_wire::Schedule;
use std::alloc::{AllocError, Global};
use std::marker::Model;

/// A bus as a port, with the names of its interfaces and its fault plan. Each call is one event on the bus, except for calls that
/// look up names, counts or error counters and calls about fault rules.
#[derive(Drop)]
pub struct BusPort<T: BoundedQueue<Pending>, R: BoundedQueue<Received>, A: Arbiter> {
    alloc: Global,
    names: Names,
    bus: Bus<T, R, A>,
    plan: Plan,
    schedule: Option<Schedule>,
}

impl<T: BoundedQueue<Pending>, R: BoundedQueue<Received>, A: Arbiter> Model for BusPort<T, R, A> {
    ghost use Rattle.std.specs.Coded.{codes};
    ghost use Rattle.can_fault.specs.Sources.{verdict_map_code};
    ghost use Rattle.can_session.specs.BusSteps.{NamedBus};

    ghost Value = { NamedBus };

    ghost coded = { Prim.hlevel (codes, verdict_map_code) };

    ghost view = { λ p. record {
      names = p.names;
      journal = p.bus;
      plan = p.plan;
      schedule = p.schedule;
    } };
}

impl<T: BoundedQueue<Pending>, R: BoundedQueue<Received>, A: Arbiter> BusPort<T, R, A> {
    /// Returns the port of a bus. `names` contains the names of the interfaces, starting with interface 0. The calls allocate
    /// memory from `alloc`.
    pub fn new(alloc: Global, names: Names, bus: Bus<T, R, A>) -> BusPort<T, R, A>
        ensures { result ≡ record {
          names = names;
          journal = bus;
          plan = no_plan;
          schedule = None;
        } }
    {
        BusPort::with_plan(alloc, names, bus, Plan::new(alloc), None)
    }

    /// Returns the port of a bus that has a fault plan and, if it has bit rates, a schedule of its attempts. Otherwise the port is
    /// as returned by `new`.
    pub fn with_plan(
        alloc: Global,
        names: Names,
        bus: Bus<T, R, A>,
        plan: Plan,
        schedule: Option<Schedule>,
    ) -> BusPort<T, R, A>
        ensures { result ≡ record {
          names = names;
          journal = bus;
          plan = plan;
          schedule = schedule;
        } }
    {
        BusPort {
            alloc,
            names,
            bus,
            plan,
            schedule,
        }
    }

    /// Returns the names of the interfaces.
    pub fn names(&self) -> &Names
        ensures { result.now ≡ self.now.names }
    {
        &self.names
    }

    /// The bus.
    pub fn bus(&self) -> &Bus<T, R, A>
        ensures { result.now ≡ self.now.journal }
    {
        &self.bus
    }

    /// Consumes the port and returns its bus.
    pub fn into_bus(self) -> Bus<T, R, A>
        ensures { result ≡ self.journal }
    {
        self.bus
    }

    /// Returns the number of the next attempt with a frame.
    pub fn next_attempt(&self) -> u64
        ensures { result ≡ next_number_on self.now }
    {
        self.bus.next_attempt()
    }

    /// Returns the interface and the frame that the next attempt tries, or `None` if there is no frame to try.
    pub fn next_head(&self) -> Option<(Iface, Frame)>
        ensures { result ≡ head_on self.now }
    {
        self.bus.next_head()
    }

    /// Returns whether the bus has bit rates.
    pub(crate) fn is_timed(&self) -> bool
        ensures { result ≡ is_some self.now.schedule }
    {
        self.schedule.is_some()
    }

    /// Returns whether the bus has bit rates and an interface is waiting for its restart. If so, an attempt without a frame takes
    /// time.
    pub(crate) fn waits_in_time(&self) -> bool
        ensures { result ≡ waits_in_time self.now }
    {
        self.schedule.is_some() && self.bus.is_counting()
    }

    /// Returns whether the next attempt would begin before `moment` if the current moment is `set`.
    pub(crate) fn begins_before(&self, set: Moment, moment: Moment) -> bool
        ensures { result ≡ begins_before set moment self.now.schedule }
    {
        match &self.schedule {
            Some(schedule) => schedule.wire().begins_before(set, moment),
            None => false,
        }
    }

    /// Returns the moment of the next attempt if the current moment is `set`. `waits` is whether an interface is waiting for its
    /// restart; it matters only if the attempt has no frame.
    pub(crate) fn next_moment(&self, set: Moment, waits: bool) -> Moment
        ensures { result ≡ attempt_moment set waits (head_on self.now) self.now.schedule }
    {
        match self.schedule {
            Some(schedule) => moment_on(&set_to(schedule, set), waits, self.bus.next_head()),
            None => set,
        }
    }

    /// Tries the frame that wins arbitration, if a live interface has a frame to send, and restarts the interfaces whose restart is
    /// due. The verdict comes from the source, or from the plan if the source's verdict is good. Returns the outcome and the
    /// verdict with the rule that decided it, if any. Refusal: `RecordFull`.
    pub fn attempt(
        &mut self,
        moment: Moment,
        source: Verdict,
    ) -> (Decision, Result<Attempt, Refusal>)
        ensures decision { result.0 ≡ decision_on self.old source }
        ensures verdict { result.0.verdict ≡ verdict_on self.old source }
        ensures answer { Answers reply.Attempted self.old.journal
            (event.Attempt moment (verdict_on self.old source)) result.1 self.new.journal }
        ensures names { self.new.names ≡ self.old.names }
        ensures plan { self.new.plan ≡ plan_left self.old source }
        ensures schedule { self.new.schedule ≡ self.old.schedule }
    {
        let decision = self.next_decision(source);
        let outcome = self.bus.attempt(moment, decision.verdict);
        (decision, outcome)
    }

    /// Returns the interface with this name, if there is one.
    pub(crate) fn find(&self, name: &[u8]) -> Option<Iface>
        ensures { result ≡ place_of self.now.names name.now }
    {
        self.names.find_bytes(name)
    }

    /// Takes an interface down at this moment.
    ///
    /// Refusals, in this order: `RecordFull`, `NoInterface`.
    pub(crate) fn take_down(&mut self, iface: Iface, moment: Moment) -> Result<(), Refusal>
        ensures answer { Answers done_reply self.old.journal (event.Down iface moment) result
            self.new.journal }
        ensures same { self.new ≡ record self.old { journal = self.new.journal } }
    {
        self.bus.down(iface, moment)
    }

    /// Restarts an interface that is bus off or down at this moment.
    ///
    /// Refusals, in this order: `RecordFull`, `NoInterface`, `NotBusOff`.
    pub(crate) fn bring_up(&mut self, iface: Iface, moment: Moment) -> Result<(), Refusal>
        ensures answer { Answers done_reply self.old.journal (event.Restart iface moment) result
            self.new.journal }
        ensures same { self.new ≡ record self.old { journal = self.new.journal } }
    {
        self.bus.restart(iface, moment)
    }

    /// Adds a fault rule at the end of the plan. Refusals, in this order: `BadRule`, `UnknownInterface`, `TooManyRules`,
    /// `NoMemory`. A refused call changes nothing.
    pub fn take_rule(&mut self, rule: &[u8]) -> Result<(), RuleRefusal>
        ensures takes { Injected self.old.names rule.now self.old.plan result self.new.plan }
        ensures same { self.new ≡ record self.old { plan = self.new.plan } }
    {
        self.plan.inject(rule, &self.names)
    }

    /// On a bus with bit rates, records in the schedule the time that an attempt took. The current moment is `set`. Returns the
    /// moment at which the wire is free again.
    pub(crate) fn pass_time(
        &mut self,
        set: Moment,
        waits: bool,
        verdict: Verdict,
        attempt: &Attempt,
    ) -> Option<Moment>
        ensures free { result ≡ option_map free_at self.new.schedule }
        ensures after { self.new ≡ record self.old {
          schedule = schedule_left set waits verdict attempt.now self.old.schedule;
        } }
    {
        let Some(schedule) = &mut self.schedule else {
            return None;
        };
        schedule.set_since(set);
        note_attempt(schedule, waits, verdict, attempt);
        Some(schedule.wire().free_at())
    }

    /// Returns the verdict of the next attempt and the rule that decides it, if any. The verdict from the source is `source`. The
    /// plan counts the attempt.
    fn next_decision(&mut self, source: Verdict) -> Decision
        ensures decision { result ≡ decision_on self.old source }
        ensures verdict { result.verdict ≡ verdict_on self.old source }
        ensures after { self.new ≡ record self.old { plan = plan_left self.old source } }
    {
        let number = self.bus.next_attempt();
        match self.plan.verdict_without_rules(source, number) {
            Some(verdict) => Decision {
                verdict,
                rule: None,
            },
            None => self.plan.decision_of_rules(self.bus.next_head()),
        }
    }
}

/// Converts a reply of the bus into a reply of a port.
fn pass_on<V>(outcome: Result<V, Refusal>) -> Result<V, PortRefusal>
    ensures { result ≡ passed_on outcome }
{
    match outcome {
        Ok(value) => Ok(value),
        Err(refusal) => Err(PortRefusal::Bus(refusal)),
    }
}

impl<T: BoundedQueue<Pending>, R: BoundedQueue<Received>, A: Arbiter> Port for BusPort<T, R, A> {
    ghost use Rattle.can_session.specs.BusSteps.{BusStep};

    ghost step = { BusStep };

    fn call(&mut self, event: Event) -> Result<Reply, PortRefusal> {
        Ok(self.bus.answer(self.alloc, &event))
    }

    fn put_names(&self, text: &mut Vec<u8>) -> Result<(), AllocError> {
        put_names(text, &self.names)
    }

    fn attach(&mut self, name: &[u8]) -> Result<Iface, PortRefusal> {
        match self.names.find_bytes(name) {
            Some(iface) => Ok(iface),
            None => Err(PortRefusal::Bus(Refusal::NoInterface)),
        }
    }

    // A session makes these calls most often, so they use neither an event nor a reply value.
    fn send(&mut self, socket: SocketId, frame: Frame) -> Result<u64, PortRefusal> {
        pass_on(self.bus.send(socket, frame))
    }

    fn receive(&mut self, socket: SocketId) -> Result<Option<Received>, PortRefusal> {
        pass_on(self.bus.receive(socket))
    }

    fn receive_into(&mut self, socket: SocketId, room: &mut Received) -> Result<bool, PortRefusal> {
        pass_on(self.bus.receive_into(socket, room))
    }

    fn socket_stats(&mut self, socket: SocketId) -> Option<SocketStats> {
        self.bus.socket_stats(socket)
    }

    fn iface_stats(&mut self, iface: Iface) -> Option<IfaceStats> {
        self.bus.iface_stats(iface)
    }

    fn status(&mut self, iface: Iface) -> Counters {
        match self.bus.iface_stats(iface) {
            Some(stats) => stats.counters,
            None => Counters::zero(),
        }
    }

    fn load(&mut self, moment: Moment) -> BusLoad {
        match &self.schedule {
            Some(schedule) => load_at(schedule, moment),
            None => BusLoad::none(),
        }
    }

    fn inject(&mut self, rule: &[u8]) -> Result<(), PortRefusal> {
        rule_reply(self.take_rule(rule))
    }

    fn rules(&mut self) -> u64 {
        self.plan.rules() as u64
    }

    fn end_rules(&mut self) {
        self.plan.end_rules();
    }
}
