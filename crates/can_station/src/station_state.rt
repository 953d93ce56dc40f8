ghost use Rattle.std.specs.Prelude.{◌≡◌, ◌≢◌, ◌<◌, ◌≤◌, ℕ, [], true, List, length, Some, Ok, IfSome, IfNone, IfOk, IsTrue, OnErr, OnOk, ◌↔◌};
ghost use Rattle.can_event.specs.Events.{IsLongConfig};
ghost use Rattle.can_event.specs.Replies.{enters};
ghost use Rattle.can_bus.specs.Heads.{next_head};
ghost use Rattle.can_bus.specs.Legal.{IsLegal};
ghost use Rattle.can_event.specs.declared.event.Event.TheVariants as event;
ghost use Rattle.can_meter.specs.Readings.{readings};
ghost use Rattle.can_rules.specs.RuleLines.{text_of_lines, never_lines, with_none_left};
ghost use Rattle.can_station.specs.Held.{HasEntered, HasNoPlace, NoPassLeft, TakesRule, after_end, new_held, roll_after, slip_after, station_seen, with_plan_lines};
ghost use Rattle.can_rules.specs.Plans.{Injected, given, plan_after};
ghost use Rattle.can_station.specs.Marks.{IsBooked, IsMarked};
ghost use Rattle.can_station.specs.Passes.{IsCarriedOutForSlip, IsReceivedForSlip, IsSentForSlip, IsStateOf, IsStepped, SettlesIn, Suits, next_try, next_verdict};
ghost use Rattle.can_bus.specs.Run.{IsAnswered};
ghost use Rattle.can_roll.specs.Seen.{scroll_seen};
ghost use Rattle.can_station.specs.Published.{AreTrue, IsPublished, TakesBack, TakesBackScroll};
ghost use Rattle.can_station.specs.Waits.{AreCounts, IsNearlyFull, frame_wake, has_work, work_wake, stopped_wake, items_waiting_at};

use crate::bus_name::BusName;
use crate::gauges::{are_gauges_of, take_back_gauges};
use crate::pass::{Pass, Settled, are_all_of, recall_all};
use crate::publishing::{counters_before, publish_changes};
use crate::refusals::{TooManyPasses, WrongStation};
use crate::taking::Taking;
use crate::wait_queues::{QUEUES, QueueSet, Waiter, Waiters};
use crate::waits::WakeReason;
use can_bus::{
    BusConfig, Event, IfaceStats, Journaled, Received, Record, Refusal, Reply, RingBus, SocketId,
    SocketStats,
};
use can_fault::{FaultSource, Verdict};
use can_frame::{Frame, Iface, Moment, Names};
use can_meter::{Gauge, Keeper};
use can_record::{receive_reply, sent_reply};
use can_roll::{HandedOut, Roll, RollBlank, RollName, Scroll, Slip, roll_with_scroll};
use can_rules::{Plan, RuleLines, RuleRefusal, spelled_rule};
use std::alloc::{AllocError, Global};
use std::marker::Model;

/// The largest number of passes of a station.
const MAX_PASSES: u32 = 4096;

/// The state under a station's lock: the bus, the source of its verdicts, the plan of its faults, the lines about its rules, the
/// roll, and the keeper of its meter.
///
/// Four facts hold whenever the lock is free. The record is a legal history. Its entries can be assigned to passes so that the
/// roll's list of each pass is the list of its entries. The keeper has published each change of an interface's error counters. The
/// scroll contains everything that the bus has handed out.
#[derive(Drop)]
pub struct StationState<N: BusName, F: FaultSource + Drop, B: Journaled = RingBus> {
    pub(crate) bus: B,
    config: BusConfig,
    source: F,
    plan: Plan,
    pub(crate) changes: RuleLines,
    roll: Roll<N>,
    pub(crate) handed: HandedOut<N>,
    keeper: Keeper<N>,
    spare: Gauge<N>,
    stopped: bool,
    waiters: Waiters,
    pub(crate) taking: Taking,
}

impl<N: BusName, F: FaultSource + Drop, B: Journaled> Model for StationState<N, F, B> {
    ghost use Rattle.std.specs.Coded.{codes};
    ghost use Rattle.std.specs.Prelude.{◌≡◌};
    ghost use Rattle.can_fault.specs.Sources.{verdict_map_code};
    ghost use Rattle.can_roll.specs.Seen.{scroll_seen};
    ghost use Rattle.can_station.specs.Held.{Held};
    ghost use Rattle.can_station.specs.Marks.{IsBooked};
    ghost use Rattle.can_station.specs.Published.{IsPublished};

    ghost Value = { Held F };

    ghost coded = { Prim.hlevel (codes, verdict_map_code) };

    ghost view = { λ s. record {
      number = s.roll.number;
      journal = B.journal s.bus;
      lists = s.roll.lists;
      source = s.source;
      plan = s.plan;
      changes = s.changes;
      stopped = s.stopped;
    } };

    ghost invariant = { λ s. IsBooked s.roll (B.journal s.bus)
        × IsPublished s.keeper s.roll.number (B.journal s.bus)
        × (s.spare.number ≡ s.roll.number) × ((B.journal s.bus).config ≡ s.config)
        × (s.handed ≡ scroll_seen s.roll.number (B.handed_out s.bus)) };
}

impl<N: BusName, F: FaultSource + Drop> StationState<N, F> {
    /// Returns the record. It is a legal history whose entries can be assigned to the passes that made them.
    pub fn record(&self) -> &Record
        ensures config { result.now.config ≡ self.now.journal.config }
        ensures history { result.now.history ≡ self.now.journal.history }
        ensures legal { IsLegal self.now.journal.config self.now.journal.history }
        ensures marked { (marks : List ℕ) × IsMarked self.now.lists marks self.now.journal.history }
    {
        self.bus.record()
    }
}

impl<N: BusName, F: FaultSource + Drop, B: Journaled> StationState<N, F, B> {
    /// Returns the state of a station whose bus has no entries, and the station's scroll.
    pub(crate) fn new(
        alloc: Global,
        blank: RollBlank,
        number: u8,
        bus: B,
        config: BusConfig,
        source: F,
        plan: Plan,
        keeper: Keeper<N>,
        spare: Gauge<N>,
    ) -> (StationState<N, F, B>, Scroll<N>)
        requires name { blank ≡ N.roll number }
        requires bus { B.journal bus ≡ record { config = config; history = [] } }
        requires out { B.handed_out bus ≡ [] }
        requires proper { IsLongConfig config }
        requires keeper { keeper ≡ readings number config.ifaces [] }
        requires spare { spare.number ≡ number }
        ensures state { result.0 ≡ new_held number (B.journal bus) source plan }
        ensures scroll { result.1 ≡ scroll_seen number [] }
    {
        let (roll, handed, scroll) = roll_with_scroll(blank, number);
        let state = StationState {
            bus,
            config,
            source,
            plan,
            changes: RuleLines::new(alloc),
            roll,
            handed,
            keeper,
            spare,
            stopped: false,
            waiters: Waiters::none(),
            taking: Taking::none(),
        };
        (state, scroll)
    }

    /// Returns the number of the station.
    pub fn number(&self) -> u8
        ensures { result ≡ self.now.number }
    {
        self.roll.number()
    }

    /// Returns whether this is a state of the station with this number and this configuration.
    pub(crate) fn is_of(&self, number: u8, config: &BusConfig) -> bool
        ensures { result ≡ true → IsStateOf (station_seen number config.now) self.now }
    {
        self.roll.number() == number && self.config == *config
    }

    /// Returns the number of entries. The entries are a legal history, and can be assigned to the passes that made them.
    pub fn count(&self) -> u64
        ensures count { result ≡ length self.now.journal.history }
        ensures legal { IsLegal self.now.journal.config self.now.journal.history }
        ensures marked { (marks : List ℕ) × IsMarked self.now.lists marks self.now.journal.history }
    {
        self.bus.len()
    }

    /// Returns the keeper of the station's meter, which has published each change of an interface's
    /// error counters.
    pub fn keeper(&self) -> &Keeper<N>
        ensures { IsPublished result.now self.now.number self.now.journal }
    {
        &self.keeper
    }

    /// Returns the next pass, which has made no calls. Passes are numbered from 0. Returns `TooManyPasses` exactly if there are
    /// 4,096 passes.
    pub fn enter(&mut self) -> Result<Slip<N>, TooManyPasses>
        ensures ok { IfOk result (λ slip. HasEntered self.old slip self.new) }
        ensures err { OnErr result (NoPassLeft self.old × (self.new ≡ self.old)) }
    {
        if self.roll.passes() >= MAX_PASSES {
            return Err(TooManyPasses);
        }
        Ok(self.roll.enter())
    }

    /// Returns a new gauge of the station's meter, or `AllocError` if an allocation fails.
    pub fn gauge(&mut self) -> Result<Gauge<N>, AllocError>
        ensures same { self.new ≡ self.old }
        ensures gauge { IfOk result (λ g. g.number ≡ self.old.number) }
    {
        self.spare.another()
    }

    /// Carries out an event for the pass of this slip, and returns the reply of the bus. The event and its reply are added to the
    /// record and to the pass's list, and changes of the error counters are published. Returns `None` and changes nothing if the
    /// bus has no room for an entry until some entries are taken.
    pub fn call(&mut self, alloc: Global, slip: &mut Slip<N>, event: &Event) -> Option<Reply>
        requires { slip.old.number ≡ self.old.number }
        ensures carried { IfSome result (λ r.
            IsCarriedOutForSlip self.old slip.old event.now r self.new slip.new) }
        ensures suits { IfSome result (λ r. Suits event.now r) }
        ensures place { IfNone result (HasNoPlace B.journal B.places_in self.old.journal) }
        ensures none { IfNone result ((self.new ≡ self.old) × (slip.new ≡ slip.old)) }
    {
        if self.bus.places() == 0 {
            return None;
        }
        Some(answer_and_book(
            alloc,
            &mut self.bus,
            &mut self.roll,
            &mut self.keeper,
            slip,
            event,
        ))
    }

    /// Sends a frame for the pass of this slip, like `call`, and returns the frame's number at the interface. No error counter
    /// changes. Returns `None` in the same case as `call`.
    pub fn send(
        &mut self,
        slip: &mut Slip<N>,
        socket: SocketId,
        frame: Frame,
    ) -> Option<Result<u64, Refusal>>
        requires { slip.old.number ≡ self.old.number }
        ensures carried { IfSome result (λ r.
            IsSentForSlip self.old slip.old socket frame r self.new slip.new) }
        ensures place { IfNone result (HasNoPlace B.journal B.places_in self.old.journal) }
        ensures none { IfNone result ((self.new ≡ self.old) × (slip.new ≡ slip.old)) }
    {
        if self.bus.places() == 0 {
            return None;
        }
        let outcome = self.bus.send(socket, frame);
        let event = Event::Send(socket, frame);
        let reply = sent_reply(&outcome);
        book(&mut self.roll, slip, &event, &reply);
        Some(outcome)
    }

    /// Receives an item into the caller's `room` for the pass of this slip, like `call`, and returns whether there was an item. If
    /// there was none, `room` does not change. No error counter changes. Returns `None` in the same case as `call`.
    pub fn receive_into(
        &mut self,
        slip: &mut Slip<N>,
        socket: SocketId,
        room: &mut Received,
    ) -> Option<Result<bool, Refusal>>
        requires { slip.old.number ≡ self.old.number }
        ensures carried { IfSome result (λ r.
            IsReceivedForSlip self.old slip.old socket room.new r self.new slip.new) }
        ensures stays { result ≢ Some (Ok true) → room.new ≡ room.old }
        ensures place { IfNone result (HasNoPlace B.journal B.places_in self.old.journal) }
        ensures none { IfNone result ((self.new ≡ self.old) × (slip.new ≡ slip.old)) }
    {
        if self.bus.places() == 0 {
            return None;
        }
        let outcome = self.bus.receive_into(socket, room);
        let event = Event::Receive(socket);
        let reply = receive_reply(outcome, room);
        book(&mut self.roll, slip, &event, &reply);
        Some(outcome)
    }

    /// Carries out an attempt with the timestamp `moment`, and returns its verdict and the reply. A fault of the source for this
    /// attempt takes precedence over the verdict of the plan, whose rules count the attempt. Returns `None` in the same case as
    /// `call`; the source and the plan are not queried then.
    pub fn step(
        &mut self,
        alloc: Global,
        slip: &mut Slip<N>,
        moment: Moment,
    ) -> Option<(Verdict, Reply)>
        requires { slip.old.number ≡ self.old.number }
        ensures verdict { IfSome result (λ r. r.0 ≡ next_verdict F.verdicts self.old) }
        ensures carried { IfSome result (λ r.
            IsStepped F.verdicts self.old slip.old moment r.1 self.new slip.new) }
        ensures source { F.verdicts self.new.source ≡ F.verdicts self.old.source }
        ensures suits { IfSome result (λ r. Suits (event.Attempt moment r.0) r.1) }
        ensures place { IfNone result (HasNoPlace B.journal B.places_in self.old.journal) }
        ensures none { IfNone result ((self.new ≡ self.old) × (slip.new ≡ slip.old)) }
    {
        if self.bus.places() == 0 {
            return None;
        }
        let attempt = self.bus.next_attempt();
        let sourced = self.source.verdict(attempt);
        let verdict = next_verdict(&mut self.plan, &self.bus, attempt, sourced);
        let event = Event::Attempt(moment, verdict);
        let reply = answer_and_book(
            alloc,
            &mut self.bus,
            &mut self.roll,
            &mut self.keeper,
            slip,
            &event,
        );
        Some((verdict, reply))
    }

    /// Adds the rule in `text`, for interfaces with these names. The rule applies from the next attempt on, after the rules that
    /// are not yet used up. The errors, in order of precedence: `BadRule`, `UnknownInterface`, `TooManyRules` if 64 rules are not
    /// yet used up, `NoMemory`. `NoMemory` can also mean that 64 MiB of lines are waiting to be taken. An error changes nothing.
    pub fn inject(&mut self, text: &[u8], names: &Names) -> Result<(), RuleRefusal>
        ensures injected { Injected names.now text.now self.old.plan result self.new.plan }
        ensures takes { TakesRule text.now self.old result self.new }
    {
        let rule = spelled_rule(text, names)?;
        let attempt = self.bus.next_attempt();
        self.changes.give(&mut self.plan, rule, attempt, text)
    }

    /// Returns the number of rules that are not yet used up.
    pub fn rules(&self) -> usize
        ensures rules { result ≡ length self.now.plan.rules }
        ensures few { result ≤ 64 }
    {
        self.plan.rules()
    }

    /// Ends all rules. The script lines of the plan stay in force.
    pub fn end_rules(&mut self)
        ensures { self.new ≡ after_end self.old }
    {
        if self.plan.rules() == 0 {
            return;
        }
        self.plan.end_rules();
        self.changes.end(self.bus.next_attempt());
    }

    /// Drops the lines about the rules, and keeps no such lines from now on. It is for a station without a thread that takes them.
    pub fn keep_no_changes(&mut self)
        ensures { self.new ≡ with_plan_lines self.old.plan never_lines self.old }
    {
        self.changes.keep_none();
    }

    /// Removes and returns the lines about the rules since the start or the last call of this method. Returns `AllocError` if an
    /// allocation fails; the lines are then kept.
    pub fn take_changes(&mut self) -> Result<Vec<u8>, AllocError>
        ensures taken { IfOk result (λ lines. lines.items ≡ text_of_lines self.old.changes) }
        ensures after { OnOk result (self.new
            ≡ with_plan_lines self.old.plan (with_none_left self.old.changes) self.old) }
        ensures stays { OnErr result (self.new ≡ self.old) }
    {
        self.changes.take()
    }

    /// Returns the statistics of a socket and of an interface.
    pub(crate) fn stats(
        &self,
        socket: SocketId,
        iface: Iface,
    ) -> (Option<SocketStats>, Option<IfaceStats>)
        ensures { AreCounts self.now.journal socket.0 iface result }
    {
        (self.bus.socket_stats(socket), self.bus.iface_stats(iface))
    }

    /// Returns the number of items that are queued on this socket, or 0 if the socket is not open.
    pub(crate) fn waiting(&self, socket: SocketId) -> u64
        ensures { result ≡ items_waiting_at self.now.journal socket.0 }
    {
        match self.bus.socket_stats(socket) {
            None => 0,
            Some(counts) => counts.queued.saturating_sub(counts.taken),
        }
    }

    /// Returns why a wait for an item from this socket ends, or `None` if it continues. If it continues, the thread is recorded as
    /// waiting.
    pub(crate) fn frame_wake_or_sleep(&mut self, socket: SocketId) -> Option<WakeReason>
        ensures wake { result ≡ frame_wake self.old socket.0 }
        ensures same { self.new ≡ self.old }
    {
        let wake = self.frame_wake(socket);
        if wake.is_none() {
            self.waiters.add(socket);
        }
        wake
    }

    /// Returns the queues in which a wait for an item may be finished. These queues are then recorded as having no waiting threads.
    pub(crate) fn take_woken(&mut self) -> QueueSet
        ensures { self.new ≡ self.old }
    {
        let woken = self.woken();
        self.waiters.leave(woken);
        woken
    }

    fn woken(&self) -> QueueSet {
        let mut woken = QueueSet::none();
        for place in 0..QUEUES {
            let is_over = match self.waiters.waiter(place) {
                Waiter::Nobody => false,
                Waiter::One(socket) => self.frame_wake(socket).is_some(),
                Waiter::Several => true,
            };
            if is_over {
                woken.add(place);
            }
        }
        woken
    }

    /// Returns why a wait for an item from this socket ends, or `None` if it continues.
    pub(crate) fn frame_wake(&self, socket: SocketId) -> Option<WakeReason>
        ensures { result ≡ frame_wake self.now socket.0 }
    {
        match self.bus.socket_stats(socket) {
            None => Some(WakeReason::Closed),
            Some(counts) if counts.queued > counts.taken => Some(WakeReason::Ready),
            Some(_) => self.stopped_wake(),
        }
    }

    /// Returns the interface and the frame that the next attempt tries, or `None` if no live interface has a frame to send.
    pub(crate) fn next_head(&self) -> Option<(Iface, Frame)>
        ensures { result ≡ next_head self.now.journal.config self.now.journal.history }
    {
        self.bus.next_head()
    }

    /// Returns whether a live interface has a frame to send, or an interface counts towards its
    /// restart.
    pub(crate) fn has_work(&self) -> bool
        ensures { result ≡ has_work self.now.journal }
    {
        self.bus.next_winner().is_some() || self.bus.is_counting()
    }

    /// Returns whether the bus has at least nine tenths of the entries that its limit allows.
    pub(crate) fn is_nearly_full(&self) -> bool
        ensures { IsTrue result ↔ IsNearlyFull self.now.journal }
    {
        self.bus.len() >= u64::from(self.config.limit - self.config.limit / 10)
    }

    /// Returns why a wait for work ends, or `None` if it continues.
    pub(crate) fn work_wake(&self) -> Option<WakeReason>
        ensures { result ≡ work_wake self.now }
    {
        if self.has_work() {
            Some(WakeReason::Ready)
        } else {
            self.stopped_wake()
        }
    }

    /// Returns `Stopped` if the station was stopped, or `None` otherwise.
    fn stopped_wake(&self) -> Option<WakeReason>
        ensures { result ≡ stopped_wake self.now.stopped }
    {
        if self.stopped {
            Some(WakeReason::Stopped)
        } else {
            None
        }
    }

    /// Returns whether the station was stopped, so that all waits end.
    pub(crate) fn is_stopped(&self) -> bool
        ensures { result ≡ self.now.stopped }
    {
        self.stopped
    }

    /// Stops the station: all waits end, now and in the future.
    pub(crate) fn stop(&mut self)
        ensures { self.new ≡ record self.old { stopped = true } }
    {
        self.stopped = true;
    }

    /// Returns the `Left` of the bus (the record, if the bus keeps one), and takes these passes and gauges back. Returns
    /// `WrongStation` exactly if one of them belongs to another station.
    pub fn settle(
        self,
        passes: Vec<Pass<N>>,
        gauges: Vec<Gauge<N>>,
    ) -> Result<Settled<B::Left>, WrongStation>
        ensures left { IfOk result (λ s. B.left s.history ≡ self.journal) }
        ensures passes { IfOk result (λ s. s.passes ≡ length self.lists) }
        ensures settled { IfOk result (λ s. SettlesIn (B.left s.history) s.passes passes.items) }
        ensures gauges { IfOk result (λ s. AreTrue (B.left s.history) gauges.items) }
        ensures refused { TakesBack self.number passes.items gauges.items result }
    {
        let StationState {
            bus,
            roll,
            keeper,
            ..
        } = self;
        settle_bus(bus, roll, keeper, passes, gauges)
    }

    /// Like `settle`, but also takes the scroll back. The scroll contains the entries that the bus handed out, which are the first
    /// entries of its history. Also returns `WrongStation` exactly if the scroll belongs to another station.
    pub fn settle_scroll(
        self,
        scroll: Scroll<N>,
        passes: Vec<Pass<N>>,
        gauges: Vec<Gauge<N>>,
    ) -> Result<Settled<B::Left>, WrongStation>
        ensures left { IfOk result (λ s. B.left s.history ≡ self.journal) }
        ensures scroll { IfOk result (λ s. scroll.entries ≡ B.handed_by s.history) }
        ensures settled { IfOk result (λ s. SettlesIn (B.left s.history) s.passes passes.items) }
        ensures gauges { IfOk result (λ s. AreTrue (B.left s.history) gauges.items) }
        ensures refused { TakesBackScroll self.number
            scroll.number passes.items gauges.items result }
    {
        let StationState {
            bus,
            roll,
            mut handed,
            keeper,
            ..
        } = self;
        if scroll.number() != roll.number() {
            return Err(WrongStation);
        }
        handed.recall(scroll);
        settle_bus(bus, roll, keeper, passes, gauges)
    }
}

/// Returns the `Left` of a bus (the record, if the bus keeps one), and takes these passes and gauges back. Returns `WrongStation`
/// exactly if one of them belongs to a station other than the roll's.
fn settle_bus<N: BusName, B: Journaled>(
    bus: B,
    mut roll: Roll<N>,
    mut keeper: Keeper<N>,
    passes: Vec<Pass<N>>,
    gauges: Vec<Gauge<N>>,
) -> Result<Settled<B::Left>, WrongStation>
    requires booked { IsBooked roll (B.journal bus) }
    requires published { IsPublished keeper roll.number (B.journal bus) }
    ensures left { IfOk result (λ s. B.left s.history ≡ B.journal bus) }
    ensures out { IfOk result (λ s. B.handed_by s.history ≡ B.handed_out bus) }
    ensures passes { IfOk result (λ s. s.passes ≡ length roll.lists) }
    ensures settled { IfOk result (λ s. SettlesIn (B.left s.history) s.passes passes.items) }
    ensures gauges { IfOk result (λ s. AreTrue (B.left s.history) gauges.items) }
    ensures refused { TakesBack roll.number passes.items gauges.items result }
{
    if !are_all_of(&passes, roll.number()) {
        return Err(WrongStation);
    }
    if !are_gauges_of(&gauges, roll.number()) {
        return Err(WrongStation);
    }
    recall_all(&mut roll, passes);
    take_back_gauges(&mut keeper, gauges);
    Ok(Settled {
        history: bus.into_left(),
        passes: roll.passes(),
    })
}

/// Returns the verdict of the bus's next attempt, which has the number `attempt`. `source` is the source's verdict for that
/// attempt. The rules of the plan count the attempt.
fn next_verdict<B: Journaled>(plan: &mut Plan, bus: &B, attempt: u64, source: Verdict) -> Verdict
    ensures verdict { result ≡ given source plan.old attempt (next_try (B.journal bus.now)) }
    ensures after { plan.new ≡ plan_after source plan.old attempt (next_try (B.journal bus.now)) }
{
    match plan.verdict_without_rules(source, attempt) {
        Some(verdict) => verdict,
        None => plan.verdict_of_rules(bus.next_head()),
    }
}

/// Carries out an event for the pass of a slip. The bus must have room for an entry. The event is added to the roll, and changes of
/// the error counters are published.
fn answer_and_book<N: BusName, B: Journaled>(
    alloc: Global,
    bus: &mut B,
    roll: &mut Roll<N>,
    keeper: &mut Keeper<N>,
    slip: &mut Slip<N>,
    event: &Event,
) -> Reply
    requires place { 0 < B.places_in bus.old }
    requires own { slip.old.number ≡ roll.old.number }
    requires booked { IsBooked roll.old (B.journal bus.old) }
    requires published { IsPublished keeper.old roll.old.number (B.journal bus.old) }
    ensures answered { IsAnswered (B.journal bus.old) event.now result (B.journal bus.new) }
    ensures roll { roll.new ≡ roll_after slip.old.pass event.now result roll.old }
    ensures slip { slip.new ≡ slip_after event.now result slip.old }
    ensures booked { IsBooked roll.new (B.journal bus.new) }
    ensures published { IsPublished keeper.new roll.new.number (B.journal bus.new) }
    ensures out { B.handed_out bus.new ≡ B.handed_out bus.old }
{
    let before = counters_before(bus, event);
    let reply = bus.answer(alloc, event);
    book(roll, slip, event, &reply);
    let Some(before) = before else {
        return reply;
    };
    let after = bus.counters();
    let at = bus.len() as u32;
    publish_changes(keeper, &reply, at, &before, &after);
    reply
}

/// Adds a call of a slip's pass to the roll if the call added an entry to the record.
#[inline(always)]
fn book<N: RollName>(roll: &mut Roll<N>, slip: &mut Slip<N>, event: &Event, reply: &Reply)
    requires { slip.old.number ≡ roll.old.number }
    ensures roll { roll.new ≡ roll_after slip.old.pass event.now reply.now roll.old }
    ensures slip { slip.new ≡ slip_after event.now reply.now slip.old }
    ensures below { enters reply.now ≡ true → slip.old.pass < length roll.old.lists }
{
    if reply.enters() {
        roll.note(slip, event, reply);
    }
}
