ghost use Rattle.std.specs.Prelude.{◌≡◌, ◌≤◌, ℕ, slice_set, Some, IfSome, OnSome};
ghost use Rattle.can_confine.specs.Confinement.{at_start, stepped};
ghost use Rattle.can_confine.specs.Confinement.Step.{TakenDown};
ghost use Rattle.can_attempt.specs.Attempts.{attempt_between, counts_at, judged};
ghost use Rattle.can_event.specs.declared.event.Event.TheVariants as event;
ghost use Rattle.can_event.specs.declared.reply.Reply.TheVariants as reply;
ghost use Rattle.can_bus.specs.Changes.{begun_anew};
ghost use Rattle.can_bus.specs.State.{kept_nodes};
ghost use Rattle.can_audit.specs.inner.Counted.{Counts, CountsTried, IsLive, judged_nodes};
ghost use Rattle.can_audit.specs.Histories.{OnHistory};

use can_attempt::{AckMode, Judgement, Nodes, judge};
use can_bus::{Attempt, BusConfig, Entry, Event, Reply, Tried, begun_anew};
use can_confine::Counters;
use can_fault::Verdict;
use can_frame::{Iface, IfaceSet};

// Computes the error counters of a bus's interfaces from its entries.

/// Returns the outcome of an attempt, if the sending interface exists and is neither bus off nor down.
pub fn judgement_of(
    nodes: &Nodes,
    winner: Iface,
    verdict: Verdict,
    ack: AckMode,
) -> Option<Judgement>
    ensures some { IfSome result (λ j. j ≡ judged (attempt_between nodes.now winner verdict ack)) }
    ensures few { OnSome result (nodes.now.count ≤ 16) }
    ensures live { IsLive nodes.now winner →
        result ≡ Some (judged (attempt_between nodes.now winner verdict ack)) }
{
    if nodes.count > 16 || winner.number() >= nodes.count || nodes.is_silent(winner) {
        return None;
    }
    Some(judge(nodes, winner, verdict, ack))
}

/// Sets the error counters to their values after an attempt.
fn count(nodes: &mut Nodes, judgement: &Judgement)
    ensures { nodes.new ≡ record nodes.old { counters = judgement.now.counters } }
{
    nodes.counters = judgement.counters;
}

/// Resets the error counters of the interfaces that an attempt restarted.
fn note_restarts(nodes: &mut Nodes, restarted: IfaceSet)
    ensures { nodes.new ≡ begun_anew restarted nodes.old }
{
    nodes.counters = begun_anew(nodes, restarted);
}

/// Updates the error counters after a frame was tried.
fn note_frame(config: BusConfig, nodes: &mut Nodes, winner: Iface, verdict: Verdict)
    ensures { IsLive nodes.old winner →
        nodes.new ≡ judged_nodes nodes.old winner verdict config.ack }
{
    if let Some(judgement) = judgement_of(nodes, winner, verdict, config.ack) {
        count(nodes, &judgement);
    }
}

/// Updates the error counters after an attempt that tried a frame.
fn note_tried(config: BusConfig, nodes: &mut Nodes, tried: &Tried, verdict: Verdict)
    ensures { CountsTried config tried.now verdict nodes.old nodes.new }
{
    note_frame(config, nodes, tried.winner, verdict);
    note_restarts(nodes, tried.restarted);
}

/// Updates the error counters after an attempt.
fn note_attempt(config: BusConfig, nodes: &mut Nodes, attempt: &Attempt, verdict: Verdict)
    ensures { (moment : ℕ) → Counts config (event.Attempt moment verdict)
        (reply.Attempted attempt.now) nodes.old nodes.new }
{
    match attempt {
        Attempt::Tried(tried) => note_tried(config, nodes, tried, verdict),
        Attempt::Idle { restarted } => note_restarts(nodes, *restarted),
    }
}

/// Updates the error counters after a restart.
fn note_restart(nodes: &mut Nodes, iface: Iface)
    ensures { nodes.new
        ≡ record nodes.old { counters = slice_set nodes.old.counters iface at_start } }
{
    nodes.counters[iface.number() as usize] = Counters::zero();
}

/// Updates the error counters after an interface was taken down.
fn note_down(nodes: &mut Nodes, iface: Iface)
    ensures { nodes.new
        ≡ record nodes.old {
          counters = slice_set nodes.old.counters iface
              (stepped (counts_at nodes.old iface) TakenDown);
        } }
{
    nodes.counters[iface.number() as usize] = nodes.counters_of(iface).take_down();
}

/// Updates the error counters after an entry.
fn note(config: BusConfig, entry: &Entry, nodes: &mut Nodes)
    ensures { Counts config entry.now.event entry.now.reply nodes.old nodes.new }
{
    match &entry.event {
        Event::Attempt(_, verdict) => match &entry.reply {
            Reply::Attempted(attempt) => note_attempt(config, nodes, attempt, *verdict),
            _ => {}
        },
        Event::Restart(iface, _) => {
            if matches!(&entry.reply, Reply::Done) {
                note_restart(nodes, *iface);
            }
        }
        Event::Down(iface, _) => {
            if matches!(&entry.reply, Reply::Done) {
                note_down(nodes, *iface);
            }
        }
        _ => {}
    }
}

/// Returns the error counters of all interfaces after these entries.
pub fn nodes_of(config: BusConfig, past: &[Entry]) -> Nodes
    ensures { OnHistory config past.now (λ h. result ≡ kept_nodes config h) }
{
    let mut nodes = Nodes {
        count: config.ifaces,
        counters: [Counters::zero(); 16],
    };
    for entry in past {
        note(config, entry, &mut nodes);
    }
    nodes
}
