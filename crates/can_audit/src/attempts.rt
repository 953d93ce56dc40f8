ghost use Rattle.std.specs.Prelude.{◌≡◌, reverse, slice_set, IfOk, IfSome, IsNone};
ghost use Rattle.can_arbiter.specs.Keys.{IsWinner, IsIdle};
ghost use Rattle.can_bus.specs.State.{key_in, kept_keys};
ghost use Rattle.can_bus.specs.Attempts.{winner};
ghost use Rattle.can_event.specs.declared.bus_config.BusConfig.{BusConfig};
ghost use Rattle.can_event.specs.declared.event.Event.TheVariants as event;
ghost use Rattle.can_audit.specs.Histories.{OnHistory, Yields};
ghost use Rattle.can_audit.specs.inner.Replied.{ReturnsReply, tried_reply};

use crate::counters::{judgement_of, nodes_of};
use crate::restarts::restarted_next;
use crate::sockets::iface_at;
use crate::transmit::{gone_count, head_of};
use can_arbiter::{Arbiter, ScanArbiter};
use can_attempt::Judgement;
use can_bus::{Attempt, BusConfig, Entry, Pending, Reply, Tried};
use can_fault::Verdict;
use can_frame::{Iface, IfaceSet, Moment};
use std::alloc::{AllocError, Global};

// Computes the reply to an attempt from the entries before it.

/// Passes the arbitration key of an interface's next frame to an arbiter, or clears the interface's key if it has no frame.
fn compete<A: Arbiter>(arbiter: &mut A, iface: Iface, head: Option<Pending>)
    ensures { A.keys_of arbiter.new ≡ slice_set (A.keys_of arbiter.old) iface (key_in head) }
{
    match head {
        Some(pending) => arbiter.set(iface, pending.frame.arbitration_key()),
        None => arbiter.clear(iface),
    }
}

/// Returns the interface whose frame wins arbitration. An interface that is bus off or down has no frame to send.
fn first_of<A: Arbiter>(alloc: Global, past: &[Entry]) -> Result<Option<Iface>, AllocError>
    ensures first { IfOk result (λ w. IfSome w (λ i. IsWinner (kept_keys (reverse past.now)) i)) }
    ensures none { IfOk result (λ w. IsNone w → IsIdle (kept_keys (reverse past.now))) }
{
    let mut arbiter = A::new();
    for place in 0..16u8 {
        let iface = iface_at(place);
        let head = head_of(alloc, past, iface)?;
        compete(&mut arbiter, iface, head);
    }
    Ok(arbiter.winner())
}

/// Returns the interface that wins arbitration, if any interface has a frame to send.
fn winner(alloc: Global, past: &[Entry]) -> Result<Option<Iface>, AllocError>
    ensures { (c : BusConfig) → OnHistory c past.now (λ h. Yields result (winner c h)) }
{
    let first = first_of::<ScanArbiter>(alloc, past)?;
    Ok(first)
}

/// Returns the reply to an attempt with this outcome.
fn tried_as(
    moment: Moment,
    winner: Iface,
    number: usize,
    pending: &Pending,
    judgement: &Judgement,
    restarted: IfaceSet,
) -> Reply
    ensures { result ≡ tried_reply moment winner number pending.now judgement.now restarted }
{
    Reply::Attempted(Attempt::Tried(Tried {
        moment,
        winner,
        number: number as u64,
        frame: pending.frame,
        class: judgement.class,
        accepted: judgement.accepted,
        off: judgement.off,
        restarted,
    }))
}

/// Returns the reply to an attempt made after these entries.
pub fn attempt_reply(
    alloc: Global,
    config: BusConfig,
    past: &[Entry],
    moment: Moment,
    verdict: Verdict,
) -> Result<Reply, AllocError>
    ensures { ReturnsReply config past.now (event.Attempt moment verdict) result }
{
    let restarted = restarted_next(config, past);
    let Some(winner) = winner(alloc, past)? else {
        return Ok(Reply::Attempted(Attempt::Idle { restarted }));
    };
    let Some(pending) = head_of(alloc, past, winner)? else {
        return Ok(Reply::Attempted(Attempt::Idle { restarted }));
    };
    let number = gone_count(alloc, past, winner)?;
    let nodes = nodes_of(config, past);
    Ok(match judgement_of(&nodes, winner, verdict, config.ack) {
        Some(judgement) => tried_as(moment, winner, number, &pending, &judgement, restarted),
        None => Reply::Attempted(Attempt::Idle { restarted }),
    })
}
