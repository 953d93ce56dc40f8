ghost use Rattle.std.specs.Prelude.{◌≡◌, ◌≢◌, ◌≤◌, Ok, Some, true, length, IfOk, IfSome, IfNone, IsTrue, ◌↔◌};
ghost use Rattle.can_bus.specs.Heads.{next_head};
ghost use Rattle.can_event.specs.Replies.{receive_reply, taken_reply, told};
ghost use Rattle.can_event.specs.declared.event.Event.TheVariants as event;
ghost use Rattle.can_event.specs.declared.reply.Reply.TheVariants as reply;
ghost use Rattle.can_rules.specs.Plans.{Injected};
ghost use Rattle.can_station.specs.Held.{TakesRule, after_end};
ghost use Rattle.can_station.specs.Passes.{ChangesNothing, IsCarriedOutForSlip, HasMemoryForCall, IsReadyFor, IsReceivedForSlip, IsSentForSlip, IsStepped, Keeps, Suits, Called, Made, MadeJudged, MadeStep, next_attempt, next_verdict, same};
ghost use Rattle.can_station.specs.Waits.{IsNearlyFull, has_work};

use crate::attempts::with_verdict;
use crate::bus_name::BusName;
use crate::gate::{Gate, Point};
use crate::kept::{keep_receive, keep_send};
use crate::pass::{Pass, keep, make_ready, make_ready_for};
use crate::refusals::StationRefusal;
use crate::station::Station;
use crate::station_state::StationState;
use crate::waits::Wakeups;
use can_bus::{Attempt, Event, Journaled, Received, Refusal, Reply, RingBus, SocketId};
use can_fault::{FaultSource, Verdict};
use can_frame::{Frame, Iface, Moment, Names};
use can_record::PackedList;
use can_roll::Slip;
use can_rules::RuleRefusal;
use std::alloc::Global;
use std::marker::Model;
use std::sync::MutexGuard;

/// A station's lock, held for several calls. Each call is one event of the bus, like a call of the station. In contracts, the hold
/// is the state under the lock. When the hold is dropped, the threads that have new work are woken.
pub struct Hold<'s, N: BusName, F: FaultSource + Drop, G: Gate + Drop, B: Journaled = RingBus> {
    pub(crate) station: &'s Station<N, F, G, B>,
    pub(crate) state: MutexGuard<'s, StationState<N, F, B>>,
    pub(crate) wakeups: Wakeups,
}

impl<'s, N: BusName, F: FaultSource + Drop, G: Gate + Drop, B: Journaled> Model
    for Hold<'s, N, F, G, B> {
    ghost use Rattle.std.specs.Coded.{codes};
    ghost use Rattle.std.specs.Sync.Mutex.{mutex_guard_value};
    ghost use Rattle.can_fault.specs.Sources.{verdict_map_code};
    ghost use Rattle.can_station.specs.Held.{Held};

    ghost Value = { Held F };

    ghost coded = { Prim.hlevel (codes, verdict_map_code) };

    ghost view = { λ h. mutex_guard_value h.state };
}

impl<'s, N: BusName, F: FaultSource + Drop, G: Gate + Drop, B: Journaled> Hold<'s, N, F, G, B> {
    /// Returns the number of the station.
    pub fn number(&self) -> u8
        ensures { result ≡ self.now.number }
    {
        self.state.number()
    }

    /// Returns whether a live interface has a frame to send, or an interface counts towards its
    /// restart.
    pub fn has_work(&self) -> bool
        ensures { result ≡ has_work self.now.journal }
    {
        self.state.has_work()
    }

    /// Returns whether the bus has at least nine tenths of the entries that its limit allows.
    pub fn is_nearly_full(&self) -> bool
        ensures { IsTrue result ↔ IsNearlyFull self.now.journal }
    {
        self.state.is_nearly_full()
    }

    /// Returns the interface and the frame that the next attempt tries, or `None` if no live
    /// interface has a frame to send.
    pub fn next_head(&self) -> Option<(Iface, Frame)>
        ensures { result ≡ next_head self.now.journal.config self.now.journal.history }
    {
        self.state.next_head()
    }

    /// Carries out an event for a pass, like the station's `call`.
    pub fn call(
        &mut self,
        alloc: Global,
        pass: &mut Pass<N>,
        event: Event,
    ) -> Result<Reply, StationRefusal>
        ensures made { Made same self.old pass.old event result self.new pass.new }
        ensures called { Called same self.old.number pass.old event result pass.new }
        ensures suits { IfOk result (λ r. Suits event r) }
    {
        if make_ready_for(&mut pass.calls, alloc, &event).is_err() {
            return Err(StationRefusal::Bus(Refusal::NoMemory));
        }
        if pass.slip.number() != self.state.number() {
            return Err(StationRefusal::WrongStation);
        }
        self.carry_out(alloc, &mut pass.slip, &mut pass.calls, event)
            .ok_or(StationRefusal::Bus(Refusal::NoMemory))
    }

    /// Carries out an event for the pass of this slip, and adds the call to the calls of the pass. Returns `None` and changes
    /// nothing if the bus has no room for another entry.
    pub(crate) fn carry_out(
        &mut self,
        alloc: Global,
        slip: &mut Slip<N>,
        calls: &mut Option<PackedList>,
        event: Event,
    ) -> Option<Reply>
        requires own { slip.old.number ≡ self.old.number }
        requires ready { IsReadyFor event calls.old }
        ensures carried { IfSome result
            (λ r. IsCarriedOutForSlip self.old slip.old event r self.new slip.new) }
        ensures calls { IfSome result (λ r. Keeps calls.old event r calls.new) }
        ensures suits { IfSome result (λ r. Suits event r) }
        ensures none { IfNone result
            (ChangesNothing self.old slip.old calls.old self.new slip.new calls.new) }
    {
        let reply = self.state.call(alloc, slip, &event)?;
        self.wakeups.add(&event, &reply);
        keep(calls, event, &reply);
        Some(reply)
    }

    /// Sends a frame for a pass, like the station's `send`, and returns the frame's number at the interface.
    pub fn send(
        &mut self,
        alloc: Global,
        pass: &mut Pass<N>,
        socket: SocketId,
        frame: Frame,
    ) -> Result<u64, StationRefusal>
        ensures made { Made reply.Sent self.old pass.old (event.Send socket frame) result
            self.new pass.new }
        ensures called { Called reply.Sent self.old.number pass.old
            (event.Send socket frame) result pass.new }
    {
        if make_ready(&mut pass.calls, alloc).is_err() {
            return Err(StationRefusal::Bus(Refusal::NoMemory));
        }
        if pass.slip.number() != self.state.number() {
            return Err(StationRefusal::WrongStation);
        }
        match self.carry_out_send(&mut pass.slip, &mut pass.calls, socket, frame) {
            Some(Ok(number)) => Ok(number),
            Some(Err(why)) => Err(StationRefusal::Bus(why)),
            None => Err(StationRefusal::Bus(Refusal::NoMemory)),
        }
    }

    /// Sends a frame for the pass of this slip, and adds the call to the calls of the pass.
    fn carry_out_send(
        &mut self,
        slip: &mut Slip<N>,
        calls: &mut Option<PackedList>,
        socket: SocketId,
        frame: Frame,
    ) -> Option<Result<u64, Refusal>>
        requires own { slip.old.number ≡ self.old.number }
        requires ready { HasMemoryForCall calls.old }
        ensures carried { IfSome result
            (λ r. IsSentForSlip self.old slip.old socket frame r self.new slip.new) }
        ensures calls { IfSome result
            (λ r. Keeps calls.old (event.Send socket frame) (told reply.Sent r) calls.new) }
        ensures none { IfNone result
            (ChangesNothing self.old slip.old calls.old self.new slip.new calls.new) }
    {
        let outcome = self.state.send(slip, socket, frame)?;
        self.wakeups.add_send(outcome);
        keep_send(calls, socket, &frame, outcome);
        Some(outcome)
    }

    /// Receives an item into the caller's `room`, like the station's `receive`, and returns whether there was an item. If there was
    /// none, `room` does not change.
    pub fn receive_into(
        &mut self,
        alloc: Global,
        pass: &mut Pass<N>,
        socket: SocketId,
        room: &mut Received,
    ) -> Result<bool, StationRefusal>
        ensures made { Made (taken_reply room.new) self.old pass.old (event.Receive socket) result
            self.new pass.new }
        ensures called { Called (taken_reply room.new) self.old.number pass.old
            (event.Receive socket) result pass.new }
        ensures stays { result ≢ Ok true → room.new ≡ room.old }
    {
        if make_ready(&mut pass.calls, alloc).is_err() {
            return Err(StationRefusal::Bus(Refusal::NoMemory));
        }
        if pass.slip.number() != self.state.number() {
            return Err(StationRefusal::WrongStation);
        }
        match self.carry_out_receive(&mut pass.slip, &mut pass.calls, socket, room) {
            Some(Ok(is_item)) => Ok(is_item),
            Some(Err(why)) => Err(StationRefusal::Bus(why)),
            None => Err(StationRefusal::Bus(Refusal::NoMemory)),
        }
    }

    /// Receives an item into `room` for the pass of this slip, and adds the call to the calls of
    /// the pass.
    fn carry_out_receive(
        &mut self,
        slip: &mut Slip<N>,
        calls: &mut Option<PackedList>,
        socket: SocketId,
        room: &mut Received,
    ) -> Option<Result<bool, Refusal>>
        requires own { slip.old.number ≡ self.old.number }
        requires ready { HasMemoryForCall calls.old }
        ensures carried { IfSome result
            (λ r. IsReceivedForSlip self.old slip.old socket room.new r self.new slip.new) }
        ensures calls { IfSome result
            (λ r. Keeps calls.old (event.Receive socket) (receive_reply room.new r) calls.new) }
        ensures stays { result ≢ Some (Ok true) → room.new ≡ room.old }
        ensures none { IfNone result
            (ChangesNothing self.old slip.old calls.old self.new slip.new calls.new) }
    {
        let outcome = self.state.receive_into(slip, socket, room)?;
        if let Err(why) = outcome {
            self.wakeups.add_refusal(why);
        }
        keep_receive(calls, socket, outcome, room);
        Some(outcome)
    }

    /// Tries the frame that wins arbitration, like the station's `step`.
    pub fn step(
        &mut self,
        alloc: Global,
        pass: &mut Pass<N>,
        moment: Moment,
    ) -> Result<Attempt, StationRefusal>
        ensures made { MadeStep F.verdicts self.old pass.old moment result self.new pass.new }
        ensures source { F.verdicts self.new.source ≡ F.verdicts self.old.source }
    {
        if make_ready(&mut pass.calls, alloc).is_err() {
            return Err(StationRefusal::Bus(Refusal::NoMemory));
        }
        if pass.slip.number() != self.state.number() {
            return Err(StationRefusal::WrongStation);
        }
        let Some(reply) = self.carry_out_step(alloc, &mut pass.slip, &mut pass.calls, moment) else {
            return Err(StationRefusal::Bus(Refusal::NoMemory));
        };
        reply.into_attempted().map_err(StationRefusal::Bus)
    }

    /// Tries the frame that wins arbitration, like `step`, and also returns the verdict of the attempt.
    pub fn step_judged(
        &mut self,
        alloc: Global,
        pass: &mut Pass<N>,
        moment: Moment,
    ) -> Result<(Verdict, Attempt), StationRefusal>
        ensures made { MadeJudged F.verdicts self.old pass.old moment result self.new pass.new }
        ensures source { F.verdicts self.new.source ≡ F.verdicts self.old.source }
        ensures verdict { IfOk result (λ r. r.0 ≡ next_verdict F.verdicts self.old) }
    {
        if make_ready(&mut pass.calls, alloc).is_err() {
            return Err(StationRefusal::Bus(Refusal::NoMemory));
        }
        if pass.slip.number() != self.state.number() {
            return Err(StationRefusal::WrongStation);
        }
        let judged = self.carry_out_judged(alloc, &mut pass.slip, &mut pass.calls, moment);
        let Some((verdict, reply)) = judged else {
            return Err(StationRefusal::Bus(Refusal::NoMemory));
        };
        with_verdict(verdict, reply.into_attempted().map_err(StationRefusal::Bus))
    }

    /// Carries out an attempt for the pass of this slip, with the timestamp `moment`. The verdict comes from the source or from the
    /// plan.
    pub(crate) fn carry_out_step(
        &mut self,
        alloc: Global,
        slip: &mut Slip<N>,
        calls: &mut Option<PackedList>,
        moment: Moment,
    ) -> Option<Reply>
        requires own { slip.old.number ≡ self.old.number }
        requires ready { HasMemoryForCall calls.old }
        ensures carried { IfSome result
            (λ r. IsStepped F.verdicts self.old slip.old moment r self.new slip.new) }
        ensures source { F.verdicts self.new.source ≡ F.verdicts self.old.source }
        ensures calls { IfSome result
            (λ r. Keeps calls.old (next_attempt F.verdicts self.old moment) r calls.new) }
        ensures suits { IfSome result (λ r. Suits (next_attempt F.verdicts self.old moment) r) }
        ensures none { IfNone result
            (ChangesNothing self.old slip.old calls.old self.new slip.new calls.new) }
    {
        let (_, reply) = self.carry_out_judged(alloc, slip, calls, moment)?;
        Some(reply)
    }

    /// Carries out an attempt like `carry_out_step`, and also returns the verdict.
    fn carry_out_judged(
        &mut self,
        alloc: Global,
        slip: &mut Slip<N>,
        calls: &mut Option<PackedList>,
        moment: Moment,
    ) -> Option<(Verdict, Reply)>
        requires own { slip.old.number ≡ self.old.number }
        requires ready { HasMemoryForCall calls.old }
        ensures verdict { IfSome result (λ r. r.0 ≡ next_verdict F.verdicts self.old) }
        ensures carried { IfSome result
            (λ r. IsStepped F.verdicts self.old slip.old moment r.1 self.new slip.new) }
        ensures source { F.verdicts self.new.source ≡ F.verdicts self.old.source }
        ensures calls { IfSome result
            (λ r. Keeps calls.old (next_attempt F.verdicts self.old moment) r.1 calls.new) }
        ensures suits { IfSome result (λ r. Suits (next_attempt F.verdicts self.old moment) r.1) }
        ensures none { IfNone result
            (ChangesNothing self.old slip.old calls.old self.new slip.new calls.new) }
    {
        let station = self.station;
        station.gate.at(Point::InStep);
        let (verdict, reply) = self.state.step(alloc, slip, moment)?;
        let event = Event::Attempt(moment, verdict);
        self.wakeups.add(&event, &reply);
        keep(calls, event, &reply);
        Some((verdict, reply))
    }

    /// Adds the rule in `text`, like the station's `inject`.
    pub fn inject(&mut self, text: &[u8], names: &Names) -> Result<(), RuleRefusal>
        ensures injected { Injected names.now text.now self.old.plan result self.new.plan }
        ensures takes { TakesRule text.now self.old result self.new }
    {
        self.state.inject(text, names)
    }

    /// Returns the number of rules that are not yet used up.
    pub fn rules(&self) -> usize
        ensures rules { result ≡ length self.now.plan.rules }
        ensures few { result ≤ 64 }
    {
        self.state.rules()
    }

    /// Ends all rules. The script lines of the plan stay in force.
    pub fn end_rules(&mut self)
        ensures { self.new ≡ after_end self.old }
    {
        self.state.end_rules();
    }
}

impl<N: BusName, F: FaultSource + Drop, G: Gate + Drop, B: Journaled> Drop
    for Hold<'_, N, F, G, B> {
    fn drop(self) {
        let Hold {
            station,
            mut state,
            wakeups,
        } = self;
        let woken = wakeups.woken(&mut state);
        let is_awaited = state.take_awaited();
        drop(state);
        station.wake(wakeups, woken);
        if is_awaited {
            station.written.notify_all();
        }
    }
}
