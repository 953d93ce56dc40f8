ghost use Rattle.std.specs.Prelude.{◌≡◌, ◌++◌, ◌∷◌, [], List, OnOk, IfOk, length, replicate, true};
ghost use Rattle.can_bus.specs.Lean.{IsAfter};
ghost use Rattle.can_confine.specs.Confinement.{at_start};
ghost use Rattle.can_event.specs.declared.entry.Entry.{Entry as AnEntry};
ghost use Rattle.can_replay.specs.Brought.{is_step};
ghost use Rattle.can_replay.specs.EventsText.{asked_of, nothing_wanted, parts_of, unended, with_parts};
ghost use Rattle.can_replay.specs.inner.Seen.{HasSeen, seen_in, told_parts};

use crate::changed::changed_sockets;
use crate::parts::{put_all_counts, put_all_lost, put_queued, put_refused};
use crate::ruled::{put_rule, put_rules};
use crate::wanted::Wanted;
use crate::wire::put_wire;
use can_bus::{LeanRingBus, RingState};
use can_confine::Counters;
use can_event::{Closed, Entry};
use std::alloc::{AllocError, Global};
use std::marker::Model;

/// The part of a bus's state that an entry can change, as it was before the entry.
///
/// Call `look` before an attempt, a restart, or taking an interface down. Then let the bus answer, and call `put_line` or
/// `put_wanted_line`. `new` allocates all the memory.
#[derive(Drop)]
pub struct Before {
    /// The error counters of the interfaces. The array always has 16 elements.
    counters: [Counters; 16],
    /// The number of frames that each interface has lost so far.
    lost: Vec<u64>,
    /// For each open socket, how many items are unread and how many were dropped.
    sockets: Vec<Closed>,
}

impl Model for Before {
    ghost use Rattle.can_replay.specs.inner.Seen.{Seen};

    ghost Value = { Seen };

    ghost view = { λ b. record {
      counters = b.counters;
      lost = b.lost.items;
      sockets = b.sockets.items;
    } };
}

impl Before {
    /// Returns a value that contains no bus state yet, with memory for 64 sockets.
    pub fn new(alloc: Global) -> Result<Before, AllocError>
        ensures { IfOk result (λ b. b
            ≡ record { counters = replicate 16 at_start; lost = []; sockets = [] }) }
    {
        Ok(Before {
            counters: [Counters::zero(); 16],
            lost: Vec::with_capacity(alloc, 16)?,
            sockets: Vec::with_capacity(alloc, 64)?,
        })
    }

    /// Stores the state of a bus.
    pub fn look(&mut self, bus: &LeanRingBus) -> Result<(), AllocError>
        ensures { (past : List AnEntry) → IsAfter bus.now past →
            OnOk result (HasSeen bus.now.config past self.new) }
    {
        self.see(bus.state())
    }

    // Stores the parts of the bus's state that an entry can change.
    fn see(&mut self, state: &RingState) -> Result<(), AllocError>
        ensures { OnOk result (self.new ≡ seen_in state.now) }
    {
        self.counters = state.counters();
        see_lost(&mut self.lost, state)?;
        see_sockets(&mut self.sockets, state)
    }

    /// Writes the line of an attempt, a restart or a down as in the record, with the effects of the entry inserted before the LF.
    /// The caller must have called `look` before the entry.
    pub fn put_line(
        &self,
        out: &mut Vec<u8>,
        bus: &LeanRingBus,
        line: &[u8],
    ) -> Result<(), AllocError>
        ensures { (past : List AnEntry) (e : AnEntry) → HasSeen bus.now.config past self.now →
            IsAfter bus.now (e ∷ past) → is_step e.event ≡ true →
            OnOk result (out.new.items ≡ out.old.items ++
            with_parts nothing_wanted bus.now.config past e line.now) }
    {
        self.put_front(out, bus, line)?;
        out.extend_from_slice(b"\n")?;
        Ok(())
    }

    /// Writes the same line as `put_line`, with the wanted parts added. The lines for the rules that the bus accepts before the
    /// entry come first. An attempt that tried a frame changes the counts of the fault rules. So every attempt of a run that tried
    /// a frame must be written with this method, in order.
    pub fn put_wanted_line(
        &self,
        out: &mut Vec<u8>,
        bus: &LeanRingBus,
        line: &[u8],
        wanted: &mut Wanted,
        entry: &Entry,
    ) -> Result<(), AllocError>
        ensures line { (past : List AnEntry) → HasSeen bus.now.config past self.now →
            IsAfter bus.now (entry.now ∷ past) → is_step entry.now.event ≡ true →
            OnOk result (out.new.items ≡ out.old.items ++
            with_parts wanted.old bus.now.config past entry.now line.now) }
        ensures asked { OnOk result (wanted.new
            ≡ record wanted.old { faults = asked_of wanted.old.faults entry.now }) }
    {
        let rule = put_rules(out, &mut wanted.faults, entry)?;
        self.put_front(out, bus, line)?;
        put_wire(out, wanted.timing, entry)?;
        put_rule(out, rule)?;
        out.extend_from_slice(b"\n")?;
        Ok(())
    }

    // Writes the line without its LF, followed by the effects of the entry.
    fn put_front(&self, out: &mut Vec<u8>, bus: &LeanRingBus, line: &[u8]) -> Result<(), AllocError>
        ensures { (past : List AnEntry) (e : AnEntry) → HasSeen bus.now.config past self.now →
            IsAfter bus.now (e ∷ past) → is_step e.event ≡ true →
            OnOk result (out.new.items ≡ out.old.items ++
            (unended line.now ++ parts_of bus.now.config past e)) }
    {
        put_unended(out, line)?;
        self.put_parts(out, bus.state())
    }

    // Writes what has changed in the bus's state since `look`.
    fn put_parts(&self, out: &mut Vec<u8>, state: &RingState) -> Result<(), AllocError>
        ensures { OnOk result (out.new.items ≡ out.old.items ++ told_parts self.now state.now) }
    {
        put_all_counts(out, &self.counters, &state.counters())?;
        put_all_lost(out, &self.lost, state)?;
        let ends = changed_sockets(&self.sockets, state);
        put_queued(out, &self.sockets[..ends.queued], state)?;
        put_refused(out, &self.sockets[..ends.refused], state)
    }
}

/// Stores the number of frames lost by each interface.
fn see_lost(lost: &mut Vec<u64>, state: &RingState) -> Result<(), AllocError>
    ensures { OnOk result (lost.new.items ≡ (seen_in state.now).lost) }
{
    if lost.len() != state.iface_count() {
        return see_lost_anew(lost, state);
    }
    see_lost_again(lost, state);
    Ok(())
}

/// Does the same as `see_lost` if the number of interfaces has changed.
#[inline(never)]
fn see_lost_anew(lost: &mut Vec<u64>, state: &RingState) -> Result<(), AllocError>
    ensures { OnOk result (lost.new.items ≡ (seen_in state.now).lost) }
{
    lost.clear();
    for i in 0..state.iface_count() {
        lost.push(state.lost_at(i).unwrap())?;
    }
    Ok(())
}

/// Does the same as `see_lost` if the number of interfaces has not changed.
fn see_lost_again(lost: &mut [u64], state: &RingState)
    requires { length lost.old ≡ length state.now.interfaces }
    ensures { lost.new ≡ (seen_in state.now).lost }
{
    for i in 0..state.iface_count() {
        lost[i] = state.lost_at(i).unwrap();
    }
}

/// Stores how many items are unread and how many were dropped at each open socket.
fn see_sockets(sockets: &mut Vec<Closed>, state: &RingState) -> Result<(), AllocError>
    ensures { OnOk result (sockets.new.items ≡ (seen_in state.now).sockets) }
{
    if sockets.len() != state.open_count() {
        return see_sockets_anew(sockets, state);
    }
    see_sockets_again(sockets, state);
    Ok(())
}

/// Does the same as `see_sockets` if the number of open sockets has changed.
#[inline(never)]
fn see_sockets_anew(sockets: &mut Vec<Closed>, state: &RingState) -> Result<(), AllocError>
    ensures { OnOk result (sockets.new.items ≡ (seen_in state.now).sockets) }
{
    sockets.clear();
    for place in 0..state.open_count() {
        let (_, counts) = state.socket_at(place).unwrap();
        sockets.push(counts)?;
    }
    Ok(())
}

/// Does the same as `see_sockets` if the number of open sockets has not changed.
fn see_sockets_again(sockets: &mut [Closed], state: &RingState)
    requires { length sockets.old ≡ length state.now.sockets }
    ensures { sockets.new ≡ (seen_in state.now).sockets }
{
    for place in 0..state.open_count() {
        let (_, counts) = state.socket_at(place).unwrap();
        sockets[place] = counts;
    }
}

/// Writes a line without its LF.
fn put_unended(out: &mut Vec<u8>, line: &[u8]) -> Result<(), AllocError>
    ensures { OnOk result (out.new.items ≡ out.old.items ++ unended line.now) }
{
    let end = line.len().saturating_sub(1);
    out.extend_from_slice(&line[..end])
}
