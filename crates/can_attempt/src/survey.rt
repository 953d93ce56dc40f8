ghost use Rattle.std.specs.Prelude.{◌≡◌, ◌≤◌};
ghost use Rattle.can_attempt.specs.Attempts.{attempt_between, can_hear, is_struck};
ghost use Rattle.can_attempt.specs.Surveys.{IsSurveyOf};
ghost use Rattle.can_attempt.specs.declared.ack_mode.AckMode.{AckMode};

use crate::nodes::Nodes;
use can_fault::Verdict;
use can_frame::{Iface, IfaceSet};

/// The receivers of an attempt, grouped by whether a local fault strikes them.
#[derive(Debug, Drop)]
pub(crate) struct Survey {
    /// The receivers that a local fault strikes.
    pub hit: IfaceSet,
    /// The receivers that no local fault strikes.
    pub unhurt: IfaceSet,
    /// Whether at least one receiver in `hit` is not error passive.
    pub is_hit_active: bool,
    /// Whether there is at least one receiver in `unhurt`.
    pub is_heard: bool,
}

/// Whether the interface is a receiver: it is not the winner, and neither bus off nor down.
pub(crate) fn can_hear(nodes: &Nodes, winner: Iface, iface: Iface) -> bool
    ensures { (v : _) → (a : AckMode) →
        result ≡ can_hear (attempt_between nodes.now winner v a) iface }
{
    iface != winner && !nodes.is_silent(iface)
}

/// Whether the verdict is a local fault that strikes the interface.
pub(crate) fn is_struck(verdict: Verdict, iface: Iface) -> bool
    ensures { result ≡ is_struck verdict iface }
{
    match verdict {
        Verdict::Local(named, _) => named.contains(iface),
        Verdict::Good | Verdict::Global(_) | Verdict::LastBit => false,
    }
}

/// Surveys all interfaces below `count`.
pub(crate) fn survey_of(nodes: &Nodes, winner: Iface, verdict: Verdict) -> Survey
    requires { nodes.now.count ≤ 16 }
    ensures { (a : AckMode) → IsSurveyOf (attempt_between nodes.now winner verdict a) result }
{
    let mut hit = IfaceSet::empty();
    let mut unhurt = IfaceSet::empty();
    let mut is_hit_active = false;
    let mut is_heard = false;
    for place in 0..nodes.count {
        let iface = Iface::new(place).unwrap();
        if !can_hear(nodes, winner, iface) {
            continue;
        }
        if is_struck(verdict, iface) {
            hit = hit.with(iface);
            if !nodes.counters_of(iface).state().is_passive() {
                is_hit_active = true;
            }
        } else {
            unhurt = unhurt.with(iface);
            is_heard = true;
        }
    }
    Survey {
        hit,
        unhurt,
        is_hit_active,
        is_heard,
    }
}
