ghost use Rattle.std.specs.Prelude.{◌≡◌, ◌&&◌};
ghost use Rattle.can_attempt.specs.Attempts.{is_done};
ghost use Rattle.can_bus.specs.Attempted.{IsJudged};
ghost use Rattle.can_bus.specs.Posts.{goes_to};

use can_attempt::{AckMode, Class, Judgement, Nodes};
use can_errframe::{Role, fault_frame, state_frame};
use can_event::{Pending, Tried};
use can_fault::Verdict;
use can_frame::{ErrorFrame, Iface};
use std::marker::Model;

/// An attempt that tried a frame, and the judgement that `judge` returns for it.
///
/// Contracts see only the attempt, since the attempt fixes the judgement.
#[derive(Debug, Drop)]
pub struct Attempted<'a> {
    tried: &'a Tried,
    verdict: Verdict,
    ack: AckMode,
    nodes: &'a Nodes,
    judgement: &'a Judgement,
}

impl<'a> Model for Attempted<'a> {
    ghost use Rattle.can_bus.specs.Attempted.{Outcome, IsJudged, outcome_of};

    ghost Value = { Outcome };

    ghost view = { λ a. outcome_of a.tried.now a.verdict a.ack a.nodes.now };

    ghost invariant = { λ a.
        IsJudged (outcome_of a.tried.now a.verdict a.ack a.nodes.now) a.judgement.now };
}

/// Returns whether the tried frame is posted to the sockets of an interface. `loopback` says whether the frame was queued
/// for loopback.
pub fn is_posted(tried: &Tried, iface: Iface, loopback: bool) -> bool
    ensures { result ≡ goes_to iface tried.now (is_done tried.now.class && loopback) }
{
    tried.accepted.contains(iface)
        || (iface == tried.winner && matches!(tried.class, Class::Done) && loopback)
}

impl<'a> Attempted<'a> {
    ghost use Rattle.can_attempt.specs.Attempts.{counts_after};
    ghost use Rattle.can_errframe.specs.ErrorMessages.{state_message};
    ghost use Rattle.can_bus.specs.Attempted.{outcome_of, transmission_of};
    ghost use Rattle.can_bus.specs.Posts.{goes_to, is_looped_back, role_at, fault_message_for};

    /// Returns the attempt under these faults, with the state of the interfaces before it and the
    /// judgement of `judge`. There are at most 16 interfaces.
    pub fn new(
        tried: &'a Tried,
        verdict: Verdict,
        ack: AckMode,
        nodes: &'a Nodes,
        judgement: &'a Judgement,
    ) -> Attempted<'a>
        requires { IsJudged (outcome_of tried.now verdict ack nodes.now) judgement.now }
        ensures { result ≡ outcome_of tried.now verdict ack nodes.now }
    {
        Attempted {
            tried,
            verdict,
            ack,
            nodes,
            judgement,
        }
    }

    /// Returns the frame that was tried, and the result.
    pub fn tried(&self) -> &Tried
        ensures { result.now ≡ self.now.tried }
    {
        self.tried
    }

    /// Returns whether the frame is posted to the sockets of an interface. `pending` is the frame as it was queued. The
    /// frame is posted on each interface that accepted it, and on the winner's interface if it is done and looped back.
    pub fn is_posted(&self, iface: Iface, pending: Option<Pending>) -> bool
        ensures { result
            ≡ goes_to iface self.now.tried (is_looped_back self.now.tried.class pending) }
    {
        let loopback = match pending {
            Some(pending) => pending.loopback,
            None => false,
        };
        is_posted(self.tried, iface, loopback)
    }

    /// Returns the role of an interface in the attempt, or `None` if it is bus off, down, or not
    /// there.
    pub fn role_of(&self, iface: Iface) -> Option<Role>
        ensures { result ≡ role_at (transmission_of self.now) iface }
    {
        let place = iface.number();
        if place == self.tried.winner.number() {
            return Some(Role::Winner);
        }
        if self.judgement.hit.contains(iface) {
            return Some(Role::Named);
        }
        if place >= self.nodes.count {
            return None;
        }
        if self.nodes.is_silent(iface) {
            return None;
        }
        Some(Role::Other)
    }

    /// Returns the error message frame for the attempt's fault, if this interface sees one.
    pub fn fault_at(&self, iface: Iface) -> Option<ErrorFrame>
        ensures { result ≡ fault_message_for self.now.tried.class self.now.verdict
            (role_at (transmission_of self.now) iface) }
    {
        match self.role_of(iface) {
            Some(role) => fault_frame(self.tried.class, self.verdict, role),
            None => None,
        }
    }

    /// Returns the error message frame for a change of the interface's state, if the attempt
    /// changed it.
    pub fn state_change_at(&self, iface: Iface) -> Option<ErrorFrame>
        ensures { result ≡ state_message ((transmission_of self.now).counts iface)
            (counts_after (transmission_of self.now) iface) }
    {
        let after = self.judgement.counters[iface.number() as usize];
        state_frame(self.nodes.counters_of(iface), after)
    }
}
