ghost use Rattle.std.specs.Prelude.{◌≡◌, ◌↔◌, length, Err, IfOk, OnOk};
ghost use Rattle.can_record.specs.Outcomes.{done_reply};
ghost use Rattle.can_event.specs.declared.reply.Reply.TheVariants as reply;
ghost use Rattle.can_event.specs.declared.event.Event.TheVariants as event;
ghost use Rattle.can_event.specs.Replies.{taken_reply};
ghost use Rattle.can_event.specs.Events.{IsConfig};
ghost use Rattle.can_bus.specs.Legal.{IsLegal};
ghost use Rattle.can_bus.specs.Headline.{Headline};
ghost use Rattle.can_rules.specs.Plans.{Injected, without_rules};
ghost use Rattle.can_session.specs.BusSteps.{waits_in_time, verdict_on, plan_left};
ghost use Rattle.can_session.specs.Wires.{load_at, begins_before};
ghost use Rattle.can_bus.specs.Stats.{socket_stats_of, iface_stats_of};
ghost use Rattle.canbusd_c.specs.Locals.{local_at_start, local_at_moment, is_local_due, next_local_moment, local_passed, IsLocalEvent, IsLocalTry, AreDueMade, IsLocalRun, can_run_to, local_with_plan};
ghost use Rattle.can_fault.specs.declared.verdict.Verdict.TheVariants.{Good};

use crate::timed::{first_schedule, load_at, moment_on, note_attempt, set_to};
use can_bus::{
    Attempt, BusConfig, BusFault, Closed, IfaceStats, Opt, Received, Record, Refusal, RingBus,
    SocketId, SocketStats,
};
use can_fault::Verdict;
use can_filter::FilterSet;
use can_frame::{Frame, Iface, Moment, Names};
use can_proto::BusLoad;
use can_rules::{Plan, RuleRefusal};
use can_wire::{Schedule, Timing};
use std::alloc::Global;
use std::marker::Model;
use thiserror::Error;

/// The reason why a bus cannot run to a moment.
#[derive(Debug, Clone, Copy, PartialEq, Eq, Error)]
pub enum RunFault {
    /// The bus has no bit rates, or its current moment is later.
    #[error("cannot run")]
    BadRun,
    /// The record has no room for an attempt that is due.
    #[error("record full")]
    RecordFull,
}

/// A bus with the names of its interfaces, the plan of its faults, the schedule of its attempts and the current moment. Each method
/// does the same as the corresponding call of a bus or a bench.
#[derive(Drop)]
pub struct LocalBus {
    alloc: Global,
    names: Names,
    bus: RingBus,
    plan: Plan,
    schedule: Option<Schedule>,
    moment: Moment,
}

impl Model for LocalBus {
    ghost use Rattle.std.specs.Coded.{codes};
    ghost use Rattle.can_fault.specs.Sources.{verdict_map_code};
    ghost use Rattle.canbusd_c.specs.Locals.{Local};

    ghost Value = { Local };

    ghost coded = { Prim.hlevel (codes, verdict_map_code) };

    ghost view = { λ b. record {
      bus = record { names = b.names; journal = b.bus; plan = b.plan; schedule = b.schedule };
      moment = b.moment;
    } };
}

impl LocalBus {
    /// Returns a new bus whose interfaces have these names.
    pub fn new(
        alloc: Global,
        names: Names,
        config: BusConfig,
        timing: Option<Timing>,
    ) -> Result<LocalBus, BusFault>
        ensures made { IfOk result (λ b. b ≡ local_at_start names config timing) }
        ensures proper { OnOk result (IsConfig config) }
        ensures bad { (result ≡ Err BusFault.BadConfig) ↔ (¬ IsConfig config) }
    {
        let bus = RingBus::new(alloc, config)?;
        Ok(LocalBus {
            alloc,
            names,
            bus,
            plan: Plan::new(alloc),
            schedule: first_schedule(timing),
            moment: the_start(),
        })
    }

    /// Opens a socket, as `Bus::open` does.
    pub fn open(&mut self, iface: Iface, capacity: u32) -> Result<SocketId, Refusal>
        ensures { IsLocalEvent reply.Opened self.old (event.Open iface capacity) result self.new }
    {
        self.bus.open(self.alloc, iface, capacity)
    }

    /// Closes a socket, as `Bus::close` does.
    pub fn close(&mut self, id: SocketId) -> Result<Closed, Refusal>
        ensures { IsLocalEvent reply.Closed self.old (event.Close id) result self.new }
    {
        self.bus.close(id)
    }

    /// Sets the filters of a socket to a copy of these filters, as `Bus::set_filters` does.
    pub fn set_filters(&mut self, id: SocketId, filters: &FilterSet) -> Result<(), Refusal>
        ensures { IsLocalEvent done_reply self.old (event.SetFilters id filters.now) result
            self.new }
    {
        self.bus.set_filters(self.alloc, id, filters)
    }

    /// Sets an option of a socket, as `Bus::set_option` does.
    pub fn set_option(&mut self, id: SocketId, option: Opt) -> Result<(), Refusal>
        ensures { IsLocalEvent done_reply self.old (event.SetOption id option) result self.new }
    {
        self.bus.set_option(id, option)
    }

    /// Puts a frame into a transmit queue, as `Bus::send` does.
    pub fn send(&mut self, id: SocketId, frame: Frame) -> Result<u64, Refusal>
        ensures { IsLocalEvent reply.Sent self.old (event.Send id frame) result self.new }
    {
        self.bus.send(id, frame)
    }

    /// Takes the oldest item from the receive queue of a socket into `room`, as `Bus::receive_into` does.
    pub fn receive_into(&mut self, id: SocketId, room: &mut Received) -> Result<bool, Refusal>
        ensures { IsLocalEvent (taken_reply room.new) self.old (event.Receive id) result self.new }
    {
        self.bus.receive_into(id, room)
    }

    /// Restarts an interface, as `Bus::restart` does.
    pub fn restart(&mut self, iface: Iface, moment: Moment) -> Result<(), Refusal>
        ensures { IsLocalEvent done_reply self.old (event.Restart iface moment) result self.new }
    {
        self.bus.restart(iface, moment)
    }

    /// Takes an interface down, as `Bus::down` does.
    pub fn down(&mut self, iface: Iface, moment: Moment) -> Result<(), Refusal>
        ensures { IsLocalEvent done_reply self.old (event.Down iface moment) result self.new }
    {
        self.bus.down(iface, moment)
    }

    /// Sets the current moment and tries the frame that wins arbitration, as an attempt of a bench does. The fault rules give the
    /// verdict. On a bus with bit rates, the attempt begins at that moment or when the wire becomes free, whichever is later.
    /// Afterwards the current moment is the time at which the wire is free again.
    pub fn attempt_at(&mut self, moment: Moment) -> Result<Attempt, Refusal>
        ensures { IsLocalTry (local_at_moment moment self.old) result self.new }
    {
        self.set_moment(moment);
        self.attempt()
    }

    /// Tries the frame that wins arbitration, at the current moment or when the wire becomes free.
    fn attempt(&mut self) -> Result<Attempt, Refusal>
        ensures { IsLocalTry self.old result self.new }
    {
        let waits = self.waits_in_time();
        let moment = self.next_moment(waits);
        let verdict = self.next_verdict();
        let outcome = self.try_head(moment, verdict);
        self.pass(waits, verdict, &outcome);
        outcome
    }

    /// Makes all attempts that are due before a moment, and sets the current moment to it. Returns the number of attempts.
    pub fn run_to(&mut self, moment: Moment) -> Result<u64, RunFault>
        ensures { IsLocalRun moment self.old result self.new }
    {
        if !self.can_run(moment) {
            return Err(RunFault::BadRun);
        }
        let before = self.len();
        if self.make_due(moment).is_err() {
            return Err(RunFault::RecordFull);
        }
        self.set_moment(moment);
        Ok(self.len() - before)
    }

    /// Makes all attempts that are due before a moment.
    fn make_due(&mut self, moment: Moment) -> Result<(), RunFault>
        ensures { AreDueMade moment self.old result self.new }
    {
        while self.is_due(moment) {
            let outcome = self.attempt();
            if outcome.is_err() {
                return Err(RunFault::RecordFull);
            }
        }
        Ok(())
    }

    /// Returns whether the bus can run to a moment. It must have bit rates, and the current moment must not be later.
    fn can_run(&self, moment: Moment) -> bool
        ensures { result ≡ can_run_to moment self.now }
    {
        self.schedule.is_some() && self.moment.micros() <= moment.micros()
    }

    /// Sets the moment.
    fn set_moment(&mut self, moment: Moment)
        ensures { self.new ≡ local_at_moment moment self.old }
    {
        self.moment = moment;
    }

    /// Returns the number of entries in the record.
    fn len(&self) -> u64
        ensures { result ≡ length self.now.bus.journal.history }
    {
        self.bus.len()
    }

    /// Tries the frame that wins arbitration, at this moment and with this verdict, as `Bus::attempt` does.
    fn try_head(&mut self, moment: Moment, verdict: Verdict) -> Result<Attempt, Refusal>
        ensures { IsLocalEvent reply.Attempted self.old (event.Attempt moment verdict) result
            self.new }
    {
        self.bus.attempt(moment, verdict)
    }

    /// Adds a fault rule to the plan, as `Plan::inject` does.
    pub fn inject(&mut self, rule: &[u8]) -> Result<(), RuleRefusal>
        ensures takes { Injected self.old.bus.names rule.now self.old.bus.plan result
            self.new.bus.plan }
        ensures same { self.new ≡ local_with_plan self.old self.new.bus.plan }
    {
        self.plan.inject(rule, &self.names)
    }

    /// Ends all rules.
    pub fn end_rules(&mut self)
        ensures { self.new ≡ local_with_plan self.old (without_rules self.old.bus.plan) }
    {
        self.plan.end_rules();
    }

    /// Returns the counts of an open socket: items that were queued, items that were dropped and items that were taken.
    pub fn socket_stats(&self, id: SocketId) -> Option<SocketStats>
        ensures { result
            ≡ socket_stats_of self.now.bus.journal.config self.now.bus.journal.history id.0 }
    {
        self.bus.socket_stats(id)
    }

    /// Returns the frame counts and the error counters of an interface.
    pub fn iface_stats(&self, iface: Iface) -> Option<IfaceStats>
        ensures { result
            ≡ iface_stats_of self.now.bus.journal.config self.now.bus.journal.history iface }
    {
        self.bus.iface_stats(iface)
    }

    /// Returns how busy the wire is at a moment.
    pub fn load(&self, moment: Moment) -> BusLoad
        ensures { result ≡ load_at moment self.now.bus.schedule }
    {
        match &self.schedule {
            Some(schedule) => load_at(schedule, moment),
            None => BusLoad::none(),
        }
    }

    /// Returns the record of the bus.
    pub fn record(&self) -> &Record
        ensures config { result.now.config ≡ self.now.bus.journal.config }
        ensures history { result.now.history ≡ self.now.bus.journal.history }
        ensures legal { IsLegal self.now.bus.journal.config self.now.bus.journal.history }
        ensures headline { Headline self.now.bus.journal.config self.now.bus.journal.history }
    {
        self.bus.record()
    }

    /// Returns whether the bus has bit rates and an interface is waiting for its restart.
    fn waits_in_time(&self) -> bool
        ensures { result ≡ waits_in_time self.now.bus }
    {
        self.schedule.is_some() && self.bus.is_counting()
    }

    /// Returns the moment of the next attempt. `waits` is true if an interface is waiting for its restart; it matters only if the
    /// attempt has no frame.
    fn next_moment(&self, waits: bool) -> Moment
        ensures { result ≡ next_local_moment waits self.now }
    {
        match self.schedule {
            Some(schedule) => moment_on(
                &set_to(schedule, self.moment),
                waits,
                self.bus.next_head(),
            ),
            None => self.moment,
        }
    }

    /// Returns the verdict of the next attempt. The plan counts the attempt.
    fn next_verdict(&mut self) -> Verdict
        ensures verdict { result ≡ verdict_on self.old.bus Good }
        ensures after { self.new ≡ local_with_plan self.old (plan_left self.old.bus Good) }
    {
        let number = self.bus.next_attempt();
        match self.plan.verdict_without_rules(Verdict::Good, number) {
            Some(verdict) => verdict,
            None => self.plan.verdict_of_rules(self.bus.next_head()),
        }
    }

    /// Advances the schedule and the current moment by the time that an attempt took. `waits` is true if an interface was waiting
    /// for its restart before the attempt.
    fn pass(&mut self, waits: bool, verdict: Verdict, outcome: &Result<Attempt, Refusal>)
        ensures { self.new ≡ local_passed waits verdict outcome.now self.old }
    {
        let Ok(attempt) = outcome else {
            return;
        };
        let Some(schedule) = &mut self.schedule else {
            return;
        };
        schedule.set_since(self.moment);
        note_attempt(schedule, waits, verdict, attempt);
        self.moment = schedule.wire().free_at();
    }

    /// Returns whether an attempt would begin before this moment and either has a frame to send or takes up time for an interface
    /// that waits for its restart.
    fn is_due(&self, moment: Moment) -> bool
        ensures { result ≡ is_local_due moment self.now }
    {
        self.begins_before(moment) && (self.bus.next_head().is_some() || self.waits_in_time())
    }

    /// Returns whether the next attempt would begin before a moment.
    fn begins_before(&self, moment: Moment) -> bool
        ensures { result ≡ begins_before self.now.moment moment self.now.bus.schedule }
    {
        match &self.schedule {
            Some(schedule) => schedule.wire().begins_before(self.moment, moment),
            None => false,
        }
    }
}

/// Returns the moment at which a bus starts.
fn the_start() -> Moment
    ensures { result ≡ 0 }
{
    match Moment::new(0) {
        Ok(moment) => moment,
        Err(_) => unreachable!(),
    }
}
