ghost use Rattle.std.specs.Prelude.{◌≡◌, ◌≢◌, ◌<◌, ◌≤◌, [], length, IfOk, OnErr, ◌↔◌};
ghost use Rattle.std.specs.Sync.Mutex.{mutex_guard_value};
ghost use Rattle.can_event.specs.Events.{IsConfig, IsLongConfig};
ghost use Rattle.can_roll.specs.Seen.{scroll_seen};
ghost use Rattle.can_rules.specs.RuleLines.{text_of_lines};
ghost use Rattle.can_station.specs.Held.{station_seen};
ghost use Rattle.can_station.specs.Passes.{HadNoPassLeft, InSome, InjectsIn, IsNewLightPass, IsNewPass, IsStateOf, SettlesIn, Suits, Answered, Called, Stepped, same};
ghost use Rattle.can_station.specs.Published.{AreTrue, TakesBack, TakesBackScroll};

use crate::bus_name::BusName;
use crate::gate::{Gate, Point};
use crate::hold::Hold;
use crate::pass::{Pass, Settled, make_ready, make_ready_for};
use crate::refusals::{StationRefusal, TooManyPasses, WrongStation};
use crate::station_state::StationState;
use crate::wait_queues::WaitQueues;
use crate::waits::{ROOM, Wakeups};
use can_bus::{Attempt, BusConfig, BusFault, Event, Journaled, Refusal, Reply, RingBus};
use can_fault::FaultSource;
use can_frame::{Moment, Names};
use can_meter::{Gauge, MeterBlank, meter, meter_blank};
use can_record::PackedList;
use can_roll::{RollBlank, Scroll, Slip, roll_blank};
use can_rules::{Plan, RuleRefusal};
use std::alloc::{AllocError, Global};
use std::marker::Model;
use std::sync::atomic::AtomicU8;
use std::sync::{Condvar, Mutex, MutexGuard, Wait};

/// The blanks from which a station is created: one for its roll and one for its meter.
#[derive(Drop)]
pub struct Blanks {
    pub roll: RollBlank,
    pub meter: MeterBlank,
}

impl Blanks {
    /// Returns blanks for a bus of 1 to 16 interfaces, or `AllocError` if an allocation fails.
    pub fn new(alloc: Global, ifaces: usize) -> Result<Blanks, AllocError>
        requires { (0 < ifaces) × (ifaces ≤ 16) }
        ensures { IfOk result (λ b. b.meter.words ≡ ifaces) }
    {
        Ok(Blanks {
            roll: roll_blank(alloc)?,
            meter: meter_blank(alloc, ifaces)?,
        })
    }
}

/// A bus that several threads share. In contracts, a station is its number and its configuration.
///
/// Each call of a pass, and each `step`, is one event of the bus and takes the lock once. The lock protects a [`StationState`].
#[derive(Drop)]
pub struct Station<N: BusName, F: FaultSource + Drop, G: Gate + Drop, B: Journaled = RingBus> {
    pub(crate) state: Mutex<StationState<N, F, B>>,
    /// Drivers wait here for frames to send and for interfaces to restart.
    pub(crate) work: Condvar,
    /// Receivers wait here for items.
    pub(crate) items: WaitQueues,
    /// Sleeping threads wait here for the station to stop.
    pub(crate) ends: Condvar,
    /// Calls wait here for room in the bus's tail.
    pub(crate) room: Condvar,
    /// Threads that take entries wait here.
    pub(crate) written: Condvar,
    pub(crate) gate: G,
    pub(crate) number: u8,
    config: BusConfig,
    /// Whether a call found the record full, and whether this was reported: `ROOM`, `FULL` or `REPORTED`.
    pub(crate) fullness: AtomicU8,
}

impl<N: BusName, F: FaultSource + Drop, G: Gate + Drop, B: Journaled> Model
    for Station<N, F, G, B> {
    ghost use Rattle.can_station.specs.Held.{StationSeen, station_seen};

    ghost Value = { StationSeen };

    ghost view = { λ s. station_seen s.number s.config };
}

impl<N: BusName, F: FaultSource + Drop, G: Gate + Drop> Station<N, F, G> {
    /// Returns a station with an empty record. In contracts, `N` identifies the station's bus by this number. The station has no
    /// plan of faults: the source gives the verdicts of its attempts. Memory for all `limit` entries is allocated here.
    ///
    /// Returns `BadConfig` exactly if the configuration is outside the limits of a bus, or if its number of interfaces differs from
    /// the number in the blanks. Returns `NoMemory` if an allocation failed.
    pub fn new(
        alloc: Global,
        blanks: Blanks,
        number: u8,
        config: BusConfig,
        source: F,
        gate: G,
    ) -> Result<Station<N, F, G>, BusFault>
        requires roll { blanks.roll ≡ N.roll number }
        requires meter { blanks.meter ≡ N.meter number }
        ensures made { IfOk result (λ s. s ≡ station_seen number config) }
        ensures bad { (result ≡ Err BusFault.BadConfig)
            ↔ (¬ (IsConfig config × (blanks.meter.words ≡ config.ifaces))) }
    {
        if !config.is_proper() || blanks.meter.ifaces() != usize::from(config.ifaces) {
            return Err(BusFault::BadConfig);
        }
        let bus = RingBus::new(alloc, config)?;
        let plan = Plan::new(alloc);
        let (station, _) = Station::over(alloc, blanks, number, bus, config, source, plan, gate)?;
        Ok(station)
    }
}

impl<N: BusName, F: FaultSource + Drop, G: Gate + Drop, B: Journaled> Station<N, F, G, B> {
    /// Returns a station over a new bus with this configuration and this plan of faults, and the scroll for the thread that takes
    /// its entries. Returns `NoMemory` if an allocation failed.
    pub fn over(
        alloc: Global,
        blanks: Blanks,
        number: u8,
        bus: B,
        config: BusConfig,
        source: F,
        plan: Plan,
        gate: G,
    ) -> Result<(Station<N, F, G, B>, Scroll<N>), BusFault>
        requires roll { blanks.roll ≡ N.roll number }
        requires meter { blanks.meter ≡ N.meter number }
        requires bus { B.journal bus ≡ record { config = config; history = [] } }
        requires out { B.handed_out bus ≡ [] }
        requires proper { IsLongConfig config }
        requires ifaces { blanks.meter.words ≡ config.ifaces }
        ensures made { IfOk result (λ s. s.0 ≡ station_seen number config) }
        ensures scroll { IfOk result (λ s. s.1 ≡ scroll_seen number []) }
        ensures err { result ≢ Err BusFault.BadConfig }
    {
        let Blanks { roll, meter: blank } = blanks;
        let Ok((keeper, spare)) = meter::<N>(alloc, blank, number) else {
            return Err(BusFault::NoMemory);
        };
        let (state, scroll) = StationState::new(
            alloc, roll, number, bus, config, source, plan, keeper, spare,
        );
        let station = Station {
            state: Mutex::new(state),
            work: Condvar::new(),
            items: WaitQueues::new(),
            ends: Condvar::new(),
            room: Condvar::new(),
            written: Condvar::new(),
            gate,
            number,
            config,
            fullness: AtomicU8::new(ROOM),
        };
        Ok((station, scroll))
    }

    /// Returns the number of the station.
    pub fn number(&self) -> u8
        ensures { result ≡ self.now.number }
    {
        self.number
    }

    /// Returns the configuration of the station's bus.
    pub fn config(&self) -> BusConfig
        ensures { result ≡ self.now.config }
    {
        self.config
    }

    /// Locks the state. The state has had the station's number and configuration since `new`, but no type guarantees this: if it
    /// had others, this method would wait forever.
    pub(crate) fn hold<R: Wait>(&self, rt: &R) -> MutexGuard<'_, StationState<N, F, B>>
        ensures { IsStateOf self.now (mutex_guard_value result) }
    {
        self.own(rt, self.state.lock(rt))
    }

    /// Returns this guard if it guards this station's state. For any other state the method waits forever.
    pub(crate) fn own<'s, R: Wait>(
        &'s self,
        rt: &R,
        state: MutexGuard<'s, StationState<N, F, B>>,
    ) -> MutexGuard<'s, StationState<N, F, B>>
        ensures state { IsStateOf self.now (mutex_guard_value result) }
        ensures same { mutex_guard_value result ≡ mutex_guard_value state.entry }
    {
        if state.is_of(self.number, &self.config) {
            return state;
        }
        for _ in rt.forever() {}
        unreachable!()
    }

    /// Takes the lock for several calls. All other calls of the station wait until the hold is dropped. On the bus of a long run
    /// this method first waits for room in the tail: 512 entries, or half of a smaller tail. If a call of the hold still finds no
    /// room, it is refused with `NoMemory`.
    pub fn lock<R: Wait>(&self, rt: &R) -> Hold<'_, N, F, G, B>
        ensures { IsStateOf self.now result }
    {
        let state = self
            .room
            .wait_while(rt, self.state.lock(rt), |state| state.is_short());
        Hold {
            station: self,
            state: self.own(rt, state),
            wakeups: Wakeups::none(),
        }
    }

    /// Returns the next pass, which has made no calls. Passes are numbered from 0; the 4,097th call of `enter` returns
    /// `TooManyPasses`.
    pub fn enter<R: Wait>(&self, rt: &R, alloc: Global) -> Result<Pass<N>, TooManyPasses>
        ensures ok { IfOk result (λ pass. IsNewPass F self.now pass) }
        ensures err { OnErr result (HadNoPassLeft F self.now) }
    {
        let slip = self.hold(rt).enter()?;
        Ok(Pass {
            slip,
            calls: Some(PackedList::new(alloc)),
        })
    }

    /// Returns the next pass, like `enter`, but without a list of calls: its calls allocate nothing.
    pub fn enter_light<R: Wait>(&self, rt: &R) -> Result<Pass<N>, TooManyPasses>
        ensures ok { IfOk result (λ pass. IsNewLightPass F self.now pass) }
        ensures err { OnErr result (HadNoPassLeft F self.now) }
    {
        let slip = self.hold(rt).enter()?;
        Ok(Pass { slip, calls: None })
    }

    /// Returns a new gauge of the station's meter. A gauge reads the error counters without the lock. Returns `AllocError` if an
    /// allocation fails.
    pub fn gauge<R: Wait>(&self, rt: &R) -> Result<Gauge<N>, AllocError>
        ensures { IfOk result (λ g. g.number ≡ self.now.number) }
    {
        self.hold(rt).gauge()
    }

    /// Carries out an event for a pass under the lock, and returns the bus's reply. The reply suits the kind of event, or is a
    /// refusal. Returns `Err` if the event did not reach the bus: `NoMemory` if the pass's list of calls cannot grow, or else
    /// `WrongStation`.
    pub fn call<R: Wait>(
        &self,
        rt: &R,
        alloc: Global,
        pass: &mut Pass<N>,
        event: Event,
    ) -> Result<Reply, StationRefusal>
        ensures called { Called same self.now.number pass.old event result pass.new }
        ensures answered { Answered F same self.now event result }
        ensures suits { IfOk result (λ r. Suits event r) }
    {
        if make_ready_for(&mut pass.calls, alloc, &event).is_err() {
            return Err(StationRefusal::Bus(Refusal::NoMemory));
        }
        if pass.slip.number() != self.number {
            return Err(StationRefusal::WrongStation);
        }
        let mut hold = self.lock(rt);
        let reply = hold.carry_out(alloc, &mut pass.slip, &mut pass.calls, event);
        drop(hold);
        self.gate.at(Point::AfterReply);
        let Some(reply) = reply else {
            return Err(StationRefusal::Bus(Refusal::NoMemory));
        };
        Ok(reply)
    }

    /// Tries the frame that wins arbitration, or returns `Idle` if no live interface has a frame to send. A fault of the source for
    /// this attempt takes precedence over the verdict of the plan. Interfaces that are due for a restart are restarted.
    ///
    /// Refusals, in order of precedence: `NoMemory` if the pass's list of calls cannot grow, `WrongStation`, `RecordFull`.
    pub fn step<R: Wait>(
        &self,
        rt: &R,
        alloc: Global,
        pass: &mut Pass<N>,
        moment: Moment,
    ) -> Result<Attempt, StationRefusal>
        ensures { Stepped F.verdicts self.now pass.old moment result pass.new }
    {
        if make_ready(&mut pass.calls, alloc).is_err() {
            return Err(StationRefusal::Bus(Refusal::NoMemory));
        }
        if self.number != pass.slip.number() {
            return Err(StationRefusal::WrongStation);
        }
        self.gate.at(Point::BeforeStep);
        let mut hold = self.lock(rt);
        let Some(reply) = hold.carry_out_step(alloc, &mut pass.slip, &mut pass.calls, moment) else {
            return Err(StationRefusal::Bus(Refusal::NoMemory));
        };
        reply.into_attempted().map_err(StationRefusal::Bus)
    }

    /// Adds the rule in `text`, for interfaces with these names. The rule applies from the next attempt on, after the rules that
    /// are not yet used up. This is not an event of the bus, and it wakes no thread.
    ///
    /// The errors, in order of precedence: `BadRule` if a word is wrong, `UnknownInterface` if only a name is unknown,
    /// `TooManyRules` if 64 rules are not yet used up, `NoMemory`. `NoMemory` can also mean that 64 MiB of lines are waiting for
    /// `take_changes`. An error changes nothing.
    pub fn inject<R: Wait>(&self, rt: &R, text: &[u8], names: &Names) -> Result<(), RuleRefusal>
        ensures { InjectsIn F self.now names.now text.now result }
    {
        self.hold(rt).inject(text, names)
    }

    /// Returns the number of rules that are not yet used up, at most 64.
    pub fn rules<R: Wait>(&self, rt: &R) -> usize
        ensures rules { InSome F self.now (λ held. result ≡ length held.plan.rules) }
        ensures few { result ≤ 64 }
    {
        self.hold(rt).rules()
    }

    /// Ends all rules. The script lines of the plan stay in force.
    pub fn end_rules<R: Wait>(&self, rt: &R) {
        self.hold(rt).end_rules();
    }

    /// Drops the lines about the rules, and keeps no such lines from now on. If no thread took them, they would accumulate.
    pub fn keep_no_changes<R: Wait>(&self, rt: &R) {
        self.hold(rt).keep_no_changes();
    }

    /// Removes and returns the lines about the rules since the start or the last call of this method, in the form that
    /// [`RunFaults`](can_rules::RunFaults) reads. There is one line for every accepted rule and for every end of all rules, with
    /// the number of the next attempt that tries a frame. Returns `AllocError` if an allocation fails; the lines are then kept.
    pub fn take_changes<R: Wait>(&self, rt: &R) -> Result<Vec<u8>, AllocError>
        ensures { IfOk result (λ lines.
            InSome F self.now (λ held. lines.items ≡ text_of_lines held.changes)) }
    {
        self.hold(rt).take_changes()
    }

    /// Takes passes and gauges back, and returns the `Left` of the bus (the record, if the bus keeps one). The entries of the bus
    /// are a legal history for the station's configuration. They can be assigned to passes so that the calls of each returned pass
    /// are its entries, in order. Every counter value that a gauge read was published during this history. Returns `WrongStation`
    /// exactly if a pass or a gauge belongs to another station; nothing is returned then.
    pub fn settle<R: Wait>(
        self,
        rt: &R,
        passes: Vec<Pass<N>>,
        gauges: Vec<Gauge<N>>,
    ) -> Result<Settled<B::Left>, WrongStation>
        ensures settled { IfOk result (λ s. SettlesIn (B.left s.history) s.passes passes.items) }
        ensures config { IfOk result (λ s. (B.left s.history).config ≡ self.config) }
        ensures gauges { IfOk result (λ s. AreTrue (B.left s.history) gauges.items) }
        ensures refused { TakesBack self.number passes.items gauges.items result }
    {
        self.into_state(rt).settle(passes, gauges)
    }

    /// Like `settle`, but also takes the scroll back. The scroll contains the entries that the bus handed out, and they belong to
    /// the same history. So its entries are the first entries of a long run. Also returns `WrongStation` exactly if the scroll
    /// belongs to another station.
    pub fn settle_scroll<R: Wait>(
        self,
        rt: &R,
        scroll: Scroll<N>,
        passes: Vec<Pass<N>>,
        gauges: Vec<Gauge<N>>,
    ) -> Result<Settled<B::Left>, WrongStation>
        ensures scroll { IfOk result (λ s. scroll.entries ≡ B.handed_by s.history) }
        ensures settled { IfOk result (λ s. SettlesIn (B.left s.history) s.passes passes.items) }
        ensures config { IfOk result (λ s. (B.left s.history).config ≡ self.config) }
        ensures gauges { IfOk result (λ s. AreTrue (B.left s.history) gauges.items) }
        ensures refused { TakesBackScroll self.number
            scroll.number passes.items gauges.items result }
    {
        self.into_state(rt).settle_scroll(scroll, passes, gauges)
    }

    /// Takes the state out of the lock. Like `own`, it returns only this station's state.
    fn into_state<R: Wait>(self, rt: &R) -> StationState<N, F, B>
        ensures { IsStateOf self result }
    {
        let Station {
            state,
            number,
            config,
            ..
        } = self;
        let state = state.into_inner();
        if state.is_of(number, &config) {
            return state;
        }
        for _ in rt.forever() {}
        unreachable!()
    }
}
