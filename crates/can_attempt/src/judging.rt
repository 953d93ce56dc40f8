ghost use Rattle.std.specs.Prelude.{◌≡◌, ◌==◌, ◌<◌, ◌≤◌, ◌||◌, [], ◌∷◌, map, false, not, if◌then◌else◌, IsTrue};
ghost use Rattle.std.specs.List.{range_with_len};
ghost use Rattle.can_frame.specs.Sets.{set_where};
ghost use Rattle.can_confine.specs.Confinement.{all_stepped, is_off, is_silent, state_of};
ghost use Rattle.can_attempt.specs.Attempts.{IsFaultFree, IsCalmJudgement, Transmission, accepted_in, attempt_between, class_when, counts_in, counts_at, is_always, is_global, is_last_bit, judged, set_of, unhurt, winner_step, receiver_step};
ghost use Rattle.can_attempt.specs.declared.ack_mode.AckMode.{AckMode};

use crate::ack_mode::AckMode;
use crate::class::Class;
use crate::judgement::Judgement;
use crate::nodes::Nodes;
use crate::survey::{Survey, can_hear, is_struck, survey_of};
use can_confine::Counters;
use can_fault::Verdict;
use can_frame::{Iface, IfaceSet};

/// Returns the outcome of the attempt.
fn class_of(verdict: Verdict, ack: AckMode, seen: &Survey) -> Class
    ensures { result ≡ class_when (is_global verdict || seen.now.is_hit_active)
        (is_always ack || seen.now.is_heard) (is_last_bit verdict) }
{
    if matches!(verdict, Verdict::Global(_)) || seen.is_hit_active {
        Class::Destroyed
    } else if ack == AckMode::Peers && !seen.is_heard {
        Class::NoAck
    } else if matches!(verdict, Verdict::LastBit) {
        Class::LastBit
    } else {
        Class::Done
    }
}

/// Returns the winner's counters after an attempt with this outcome.
fn winner_after(class: Class, counters: Counters) -> Counters
    requires { counters.tec < 256 }
    ensures { result ≡ all_stepped counters (winner_step class (state_of counters)) }
{
    match class {
        Class::Done => counters.tx_good(),
        Class::LastBit | Class::Destroyed => counters.tx_error(),
        Class::NoAck => counters.ack_error(),
    }
}

/// Returns a receiver's counters after an attempt with this outcome. `is_hit` is true if a local fault struck the receiver.
fn receiver_after(class: Class, is_hit: bool, counters: Counters) -> Counters
    ensures { result ≡ all_stepped counters (receiver_step class is_hit) }
{
    match class {
        Class::Done if is_hit => counters.rx_error(),
        Class::Done | Class::LastBit => counters.rx_good(),
        Class::Destroyed => counters.rx_error(),
        Class::NoAck if is_hit => counters.rx_error(),
        Class::NoAck => counters,
    }
}

/// Returns an interface's counters after an attempt with this outcome.
fn counters_after(
    nodes: &Nodes,
    winner: Iface,
    verdict: Verdict,
    class: Class,
    iface: Iface,
) -> Counters
    requires there { iface < nodes.now.count }
    requires live { (counts_at nodes.now winner).tec < 256 }
    ensures { (a : AckMode) →
        result ≡ counts_in class (attempt_between nodes.now winner verdict a) iface }
{
    let counters = nodes.counters_of(iface);
    if iface == winner {
        winner_after(class, counters)
    } else if can_hear(nodes, winner, iface) {
        receiver_after(class, is_struck(verdict, iface), counters)
    } else {
        counters
    }
}

/// Returns all counters after an attempt with this outcome. Counters that belong to no interface do not change.
fn all_counters_after(
    nodes: &Nodes,
    winner: Iface,
    verdict: Verdict,
    class: Class,
) -> [Counters; 16]
    requires count { nodes.now.count ≤ 16 }
    requires winner { winner < nodes.now.count }
    requires live { (counts_at nodes.now winner).tec < 256 }
    ensures { (a : AckMode) →
        result ≡ map (counts_in class (attempt_between nodes.now winner verdict a))
        (range_with_len 0 16) }
{
    let mut counters = nodes.counters;
    for place in 0..nodes.count {
        let iface = Iface::new(place).unwrap();
        counters[place as usize] = counters_after(nodes, winner, verdict, class, iface);
    }
    counters
}

/// Returns the receivers that accept the frame in an attempt with this outcome. `unharmed` is the set of receivers that no local
/// fault struck.
fn accepted_of(class: Class, unharmed: IfaceSet) -> IfaceSet
    ensures { (t : Transmission) → unharmed ≡ set_of (unhurt t) →
        result ≡ set_of (accepted_in class t) }
{
    match class {
        Class::Done | Class::LastBit => unharmed,
        Class::Destroyed | Class::NoAck => IfaceSet::empty(),
    }
}

/// Returns a set with the winner if these counters are bus off, and the empty set otherwise.
fn off_of(winner: Iface, counters: Counters) -> IfaceSet
    ensures { result ≡ set_of (if is_off (state_of counters) then winner ∷ [] else []) }
{
    if counters.state().is_off() {
        IfaceSet::empty().with(winner)
    } else {
        IfaceSet::empty()
    }
}

/// Whether nothing can go wrong in an attempt: there is no fault, at least one node acknowledges, and all counts are 0. The
/// function looks at all 16 places.
pub fn is_fault_free(nodes: &Nodes, verdict: Verdict, ack: AckMode) -> bool
    ensures { IsTrue result → IsFaultFree nodes.now verdict ack }
{
    matches!(verdict, Verdict::Good)
        && (ack == AckMode::Always || nodes.count > 1)
        && nodes.are_at_start()
}

/// Returns all interfaces of a bus except one.
fn others(count: u8, one: Iface) -> IfaceSet
    requires count { count ≤ 16 }
    requires there { one < count }
    ensures { result ≡ set_where (λ i. not (i == one)) count }
{
    let all = u16::MAX >> (16 - count);
    IfaceSet(all ^ (1 << one.number()))
}

/// Judges an attempt in which nothing can go wrong: all other interfaces accept the frame, and the counts do not change.
fn judge_fault_free(nodes: &Nodes, winner: Iface) -> Judgement
    requires count { nodes.now.count ≤ 16 }
    requires there { winner < nodes.now.count }
    ensures { IsCalmJudgement nodes.now winner result }
{
    Judgement {
        class: Class::Done,
        accepted: others(nodes.count, winner),
        hit: IfaceSet::empty(),
        counters: nodes.counters,
        off: IfaceSet::empty(),
    }
}

/// Judges an attempt by looking at each interface.
#[inline(never)]
fn judge_each(nodes: &Nodes, winner: Iface, verdict: Verdict, ack: AckMode) -> Judgement
    requires count { nodes.now.count ≤ 16 }
    requires there { winner < nodes.now.count }
    requires live { is_silent (state_of (counts_at nodes.now winner)) ≡ false }
    ensures { result ≡ judged (attempt_between nodes.now winner verdict ack) }
{
    let seen = survey_of(nodes, winner, verdict);
    let class = class_of(verdict, ack, &seen);
    let counters = all_counters_after(nodes, winner, verdict, class);
    Judgement {
        class,
        accepted: accepted_of(class, seen.unhurt),
        hit: seen.hit,
        counters,
        off: off_of(winner, counters[winner.number() as usize]),
    }
}

/// Judges an attempt of the winner to send a frame. The result has the outcome, the receivers that accept the frame, the receivers
/// that a local fault struck, the error counters after the attempt, and whether the winner went bus off. The winner's number is
/// below `count`, which is 1 to 16, and the winner is neither bus off nor down. The function looks at each interface at most three
/// times and allocates nothing.
pub fn judge(nodes: &Nodes, winner: Iface, verdict: Verdict, ack: AckMode) -> Judgement
    requires count { nodes.now.count ≤ 16 }
    requires there { winner < nodes.now.count }
    requires live { is_silent (state_of (counts_at nodes.now winner)) ≡ false }
    ensures { result ≡ judged (attempt_between nodes.now winner verdict ack) }
{
    let is_fault_free = is_fault_free(nodes, verdict, ack);
    judge_known(nodes, winner, verdict, ack, is_fault_free)
}

/// Judges an attempt as `judge` does. The caller has already called `is_fault_free` and passes its result.
pub fn judge_known(
    nodes: &Nodes,
    winner: Iface,
    verdict: Verdict,
    ack: AckMode,
    is_fault_free: bool,
) -> Judgement
    requires count { nodes.now.count ≤ 16 }
    requires there { winner < nodes.now.count }
    requires live { is_silent (state_of (counts_at nodes.now winner)) ≡ false }
    requires calm { IsTrue is_fault_free → IsFaultFree nodes.now verdict ack }
    ensures { result ≡ judged (attempt_between nodes.now winner verdict ack) }
{
    if is_fault_free {
        judge_fault_free(nodes, winner)
    } else {
        judge_each(nodes, winner, verdict, ack)
    }
}
