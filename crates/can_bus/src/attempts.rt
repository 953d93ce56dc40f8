ghost use Rattle.std.specs.Prelude.{◌≡◌, ◌+◌, ◌<◌, ◌≤◌, ◌^◌, All, length, replicate, if◌then◌else◌};
ghost use Rattle.can_frame.specs.Sets.{is_in};
ghost use Rattle.can_confine.specs.Confinement.{at_start};
ghost use Rattle.can_attempt.specs.Attempts.{counts_at};
ghost use Rattle.can_bus.specs.Changes.{AreReady, Attempts, Restarts, TakesDown, Tries, after_auto_restart, begun_anew};

use crate::attempted::Attempted;
use crate::state::State;
use crate::{interfaces, posting};
use can_arbiter::Arbiter;
use can_attempt::{Judgement, Nodes, is_fault_free, judge_known};
use can_confine::Counters;
use can_event::{Attempt, BusConfig, Pending, Received, Refusal, Reply, Tried};
use can_fault::Verdict;
use can_frame::{Iface, IfaceSet, Moment};
use can_queue::BoundedQueue;

/// Returns the tried frame together with the result of its attempt.
fn tried_as(
    moment: Moment,
    winner: Iface,
    number: u64,
    pending: &Pending,
    judgement: &Judgement,
    restarted: IfaceSet,
) -> Tried
    ensures { result ≡ record {
      moment = moment;
      winner = winner;
      number = number;
      frame = pending.now.frame;
      class = judgement.now.class;
      accepted = judgement.now.accepted;
      off = judgement.now.off;
      restarted = restarted;
    } }
{
    Tried {
        moment,
        winner,
        number,
        frame: pending.frame,
        class: judgement.class,
        accepted: judgement.accepted,
        off: judgement.off,
        restarted,
    }
}

/// Returns the error counters of an interface, or counters of 0 if the interface is in `restarted`.
fn anew_at(nodes: &Nodes, restarted: IfaceSet, iface: Iface) -> Counters
    ensures { result ≡ (if is_in iface restarted then at_start else counts_at nodes.now iface) }
{
    if restarted.contains(iface) {
        Counters::zero()
    } else {
        nodes.counters_of(iface)
    }
}

/// Returns the error counters of all interfaces, with counters of 0 for the interfaces in `restarted`.
pub fn begun_anew(nodes: &Nodes, restarted: IfaceSet) -> [Counters; 16]
    ensures { result ≡ (begun_anew restarted nodes.now).counters }
{
    let mut counters = [Counters::zero(); 16];
    for place in 0..16u8 {
        let iface = Iface::new(place).unwrap();
        counters[place as usize] = anew_at(nodes, restarted, iface);
    }
    counters
}

impl<T: BoundedQueue<Pending>, R: BoundedQueue<Received>, A: Arbiter> State<T, R, A> {
    /// Tries the frame that wins the bus, if there is one, and notifies the sockets. The attempt reports `restarted` as the
    /// restarted interfaces.
    fn try_head(
        &mut self,
        config: BusConfig,
        moment: Moment,
        verdict: Verdict,
        restarted: IfaceSet,
    ) -> Option<Tried>
        requires few { self.old.nodes.count ≤ 16 }
        requires ready { AreReady self.old }
        requires gone { All (λ l. l.gone + 1 < 2 ^ 64) self.old.interfaces }
        requires done { All (λ l. l.done + 1 < 2 ^ 64) self.old.interfaces }
        requires dropped { All (λ v. v.dropped + 3 < 2 ^ 64) self.old.sockets }
        requires tried { self.old.tried + 1 < 2 ^ 64 }
        ensures { Tries self.old config moment verdict restarted result self.new }
    {
        let winner = self.arbiter.winner()?;
        let interface = &self.interfaces[winner.number() as usize];
        let pending = interface.head()?;
        let is_fault_free = is_fault_free(&self.nodes, verdict, config.ack);
        let judgement = judge_known(&self.nodes, winner, verdict, config.ack, is_fault_free);
        let tried = tried_as(
            moment,
            winner,
            interface.gone(),
            &pending,
            &judgement,
            restarted,
        );
        let is_off = tried.off.contains(winner);
        interfaces::finish_attempt(
            &mut self.interfaces,
            &mut self.arbiter,
            winner,
            tried.class,
            is_off,
        );
        self.countdown.start(winner, config.auto_restart, is_off);
        let attempted = Attempted::new(&tried, verdict, config.ack, &self.nodes, &judgement);
        posting::post_attempt(
            &mut self.sockets,
            &attempted,
            &pending,
            config.reporting,
            is_fault_free,
        );
        self.nodes.counters = judgement.counters;
        self.tried += 1;
        Some(tried)
    }

    /// Restarts these interfaces at the end of an attempt and notifies the sockets. It does nothing for an empty set.
    fn restart_all(&mut self, restarted: IfaceSet, moment: Moment)
        requires sixteen { length self.old.nodes.counters ≡ 16 }
        requires dropped { All (λ v. v.dropped + 1 < 2 ^ 64) self.old.sockets }
        ensures { self.new ≡ after_auto_restart self.old restarted moment }
    {
        if restarted.is_empty() {
            return;
        }
        self.nodes.counters = begun_anew(&self.nodes, restarted);
        posting::post_restarts(&mut self.sockets, restarted, moment);
    }

    /// Tries the frame that wins the bus, restarts the interfaces that have been bus off long
    /// enough, and notifies the sockets.
    pub(crate) fn attempt(&mut self, config: BusConfig, moment: Moment, verdict: Verdict) -> Attempt
        requires few { self.old.nodes.count ≤ 16 }
        requires sixteen { length self.old.nodes.counters ≡ 16 }
        requires ready { AreReady self.old }
        requires gone { All (λ l. l.gone + 1 < 2 ^ 64) self.old.interfaces }
        requires done { All (λ l. l.done + 1 < 2 ^ 64) self.old.interfaces }
        requires dropped { All (λ v. v.dropped + 4 < 2 ^ 64) self.old.sockets }
        requires tried { self.old.tried + 1 < 2 ^ 64 }
        requires never { config.auto_restart ≡ 0 → self.old.left ≡ replicate 16 0 }
        ensures { Attempts self.old config moment verdict result self.new }
    {
        let restarted = self.countdown.count(config.auto_restart);
        let tried = self.try_head(config, moment, verdict, restarted);
        self.restart_all(restarted, moment);
        match tried {
            Some(tried) => Attempt::Tried(tried),
            None => Attempt::Idle { restarted },
        }
    }

    /// Restarts an interface that is bus off or down, and notifies the sockets.
    pub(crate) fn restart(&mut self, iface: Iface, moment: Moment) -> Reply
        requires { All (λ v. v.dropped + 1 < 2 ^ 64) self.old.sockets }
        ensures { Restarts self.old iface moment result self.new }
    {
        let place = iface.number();
        if place >= self.nodes.count {
            return Reply::Refused(Refusal::NoInterface);
        }
        if !self.nodes.is_silent(iface) {
            return Reply::Refused(Refusal::NotBusOff);
        }
        self.nodes.counters[place as usize] = Counters::zero();
        self.countdown.stop(iface);
        posting::post_restart(&mut self.sockets, iface, moment);
        Reply::Done
    }

    /// Takes an interface down. Its waiting frames are lost, and its pending automatic restart is cancelled. It notifies no
    /// socket.
    pub(crate) fn down(&mut self, iface: Iface) -> Reply
        requires { self.old.nodes.count ≤ length self.old.interfaces }
        ensures { TakesDown self.old iface result self.new }
    {
        let place = iface.number();
        if place >= self.nodes.count {
            return Reply::Refused(Refusal::NoInterface);
        }
        interfaces::lose_all(&mut self.interfaces, &mut self.arbiter, iface);
        self.nodes.counters[place as usize] = self.nodes.counters_of(iface).take_down();
        self.countdown.stop(iface);
        Reply::Done
    }
}
