ghost use Rattle.std.specs.Prelude.{◌≡◌, ◌<◌, [], length, reverse, ◌==◌, slice_get, IsTrue, IsOk, OnOk, ◌↔◌};
ghost use Rattle.can_roll.specs.Seen.{roll_seen};
ghost use Rattle.can_roll.specs.Lists.{Distinct, AllBelow};
ghost use Rattle.can_station.specs.Passes.{AllOf, AllMatch, CanClose, HasMemoryForCall, IsReadyFor, HasPlaceForCall, Keeps, Suits, calls_listed, kept_calls, numbers_of};

use can_bus::{EntryRef, Event, Record, Reply};
use can_record::PackedList;
use can_roll::{Roll, RollName, Slip};
use std::alloc::{AllocError, Global};
use std::marker::Model;

/// A caller's pass and the calls made with it. Each call occupies 32 bytes. A light pass keeps no list of calls, but contracts
/// still see its calls.
#[derive(Drop)]
pub struct Pass<N: RollName> {
    pub(crate) slip: Slip<N>,
    pub(crate) calls: Option<PackedList>,
}

impl<N: RollName> Model for Pass<N> {
    ghost use Rattle.can_station.specs.Passes.{AreListedCalls, PassSeen, calls_listed, pass_seen};

    ghost Value = { PassSeen };

    ghost view = { λ p. pass_seen p.slip (calls_listed p.calls) };

    ghost invariant = { λ p. AreListedCalls (calls_listed p.calls) p.slip.calls };
}

impl<N: RollName> Pass<N> {
    /// Returns the number of the pass's station.
    pub fn number(&self) -> u8
        ensures { result ≡ self.now.number }
    {
        self.slip.number()
    }

    /// Returns the number of calls that the pass stores: all of them, or 0 for a light pass.
    pub fn len(&self) -> usize
        ensures { result ≡ length (kept_calls self.now) }
    {
        match &self.calls {
            Some(list) => list.len(),
            None => 0,
        }
    }

    /// Returns whether the pass stores no calls.
    pub fn is_empty(&self) -> bool
        ensures { result ≡ (length (kept_calls self.now) == 0) }
    {
        self.len() == 0
    }

    /// Returns the call with the index `place` and its reply, or `None` if the pass stores no such call. The oldest call has index
    /// 0. Nothing is allocated.
    pub fn call(&self, place: usize) -> Option<EntryRef<'_>>
        ensures { result ≡ slice_get (reverse (kept_calls self.now)) place }
    {
        match &self.calls {
            Some(list) => list.look(place),
            None => None,
        }
    }

    /// Returns the slip of the pass.
    fn into_slip(self) -> Slip<N>
        ensures number { result.number ≡ self.number }
        ensures pass { result.pass ≡ self.pass }
        ensures calls { result.calls ≡ self.calls }
    {
        let Pass { slip, calls: _ } = self;
        slip
    }
}

/// The result of settling a station: the `Left` of its bus (the record, if the bus keeps one), and the number of passes.
#[derive(Drop)]
pub struct Settled<L: Drop = Record> {
    pub history: L,
    pub passes: u32,
}

/// Allocates memory for a call that is not a close. It also reserves memory for one close, so that closing a socket opened with the
/// pass never fails for lack of memory. A light pass allocates nothing.
pub(crate) fn make_ready(calls: &mut Option<PackedList>, alloc: Global) -> Result<(), AllocError>
    ensures same { calls_listed calls.new ≡ calls_listed calls.old }
    ensures ready { OnOk result (HasMemoryForCall calls.new) }
{
    let Some(list) = calls else {
        return Ok(());
    };
    list.reserve(2)?;
    list.reserve_spare(alloc)
}

/// Uses the memory that was reserved for a close.
fn make_ready_for_close(calls: &mut Option<PackedList>) -> Result<(), AllocError>
    ensures same { calls_listed calls.new ≡ calls_listed calls.old }
    ensures ready { OnOk result (HasPlaceForCall calls.new) }
    ensures close { HasPlaceForCall calls.old → IsOk result }
{
    match calls {
        Some(list) => list.reserve(1),
        None => Ok(()),
    }
}

/// Prepares the memory for a call. A close uses the memory that was reserved for it.
pub(crate) fn make_ready_for(
    calls: &mut Option<PackedList>,
    alloc: Global,
    event: &Event,
) -> Result<(), AllocError>
    ensures same { calls_listed calls.new ≡ calls_listed calls.old }
    ensures ready { OnOk result (IsReadyFor event.now calls.new) }
    ensures close { CanClose event.now calls.old → IsOk result }
{
    match event {
        Event::Close(_) => make_ready_for_close(calls),
        _ => make_ready(calls, alloc),
    }
}

/// Adds a call with its reply to the list of the pass. Adds nothing if the pass keeps no list or if the call adds no entry to the
/// record. Nothing is allocated.
pub(crate) fn keep(calls: &mut Option<PackedList>, event: Event, reply: &Reply)
    requires ready { IsReadyFor event calls.old }
    requires suits { Suits event reply.now }
    ensures { Keeps calls.old event reply.now calls.new }
{
    let Some(list) = calls else {
        return;
    };
    if reply.enters() {
        list.push(event, *reply);
    }
}

/// Returns whether all passes belong to the station with this number.
pub(crate) fn are_all_of<N: RollName>(passes: &[Pass<N>], number: u8) -> bool
    ensures { IsTrue result ↔ AllOf number passes.now }
{
    passes.iter().all(|pass| pass.number() == number)
}

/// Takes all passes back. The calls of each pass are the roll's list for that pass.
pub(crate) fn recall_all<N: RollName>(roll: &mut Roll<N>, passes: Vec<Pass<N>>)
    requires number { AllOf roll.old.number passes.items }
    requires none { roll.old.called ≡ [] }
    ensures roll { roll.new ≡ roll_seen roll.old.number roll.old.lists (numbers_of passes.items) }
    ensures each { AllMatch roll.old.lists passes.items }
    ensures once { Distinct (numbers_of passes.items) }
    ensures below { AllBelow (length roll.old.lists) (numbers_of passes.items) }
{
    for pass in passes {
        roll.recall(pass.into_slip());
    }
}
