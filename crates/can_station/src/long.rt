//! Stations for long runs: the methods of `Station` that make such a station and take its record in blocks.

ghost use Rattle.std.specs.Prelude.{◌≡◌, ◌≢◌, [], Err, IfOk, OnErr, OnOk, ◌↔◌};
ghost use Rattle.can_event.specs.Events.{IsLongConfig};
ghost use Rattle.can_roll.specs.Seen.{scroll_seen, scroll_with};
ghost use Rattle.can_station.specs.Held.{station_seen};
ghost use Rattle.can_station.specs.Passes.{InSome};
ghost use Rattle.can_station.specs.Taking.{IsTaken};

use crate::bus_name::BusName;
use crate::gate::Gate;
use crate::refusals::WrongStation;
use crate::station::{Blanks, Station};
use crate::waits::WakeReason;
use can_bus::{BusConfig, BusFault, Journaled, LongRingBus, PackedRecord};
use can_fault::FaultSource;
use can_roll::Scroll;
use can_rules::Plan;
use std::alloc::{AllocError, Global};
use std::sync::Wait;
use std::time::{Clock, Duration};

/// Entries that a station handed out, in order, with the lines about its fault rules.
#[derive(Drop)]
pub struct Block {
    /// The number of entries that come before this block.
    pub start: u64,
    pub entries: PackedRecord,
    /// The lines about rules since the previous block, in the form that `take_changes` returns. All lines that matter for the
    /// entries of the block are included. If an allocation fails, the lines are included in a later block instead.
    pub changes: Vec<u8>,
}

impl Block {
    /// Returns an empty block with memory for `size` entries: 32 bytes for each entry and 76 bytes for its FD frame. Returns
    /// `AllocError` if an allocation fails.
    pub fn new(alloc: Global, size: u32) -> Result<Block, AllocError>
        ensures { IfOk result (λ b. b.entries.entries ≡ []) }
    {
        Ok(Block {
            start: 0,
            entries: PackedRecord::with_capacity(alloc, size)?,
            changes: Vec::new(alloc),
        })
    }
}

impl<N: BusName, F: FaultSource + Drop, G: Gate + Drop> Station<N, F, G, LongRingBus> {
    /// Returns a station over the bus of a long run, and the scroll for the thread that takes its entries. The station keeps only
    /// the entries that were not yet taken. It allocates memory for `size` entries, which is `TAIL_SIZE` except in tests.
    ///
    /// Returns `BadConfig` exactly if the configuration is outside the limits of a long run, or if its number of interfaces differs
    /// from the number in the blanks. Returns `NoMemory` if an allocation failed.
    pub fn new_long(
        alloc: Global,
        blanks: Blanks,
        number: u8,
        config: BusConfig,
        size: u32,
        source: F,
        gate: G,
    ) -> Result<(Station<N, F, G, LongRingBus>, Scroll<N>), BusFault>
        requires roll { blanks.roll ≡ N.roll number }
        requires meter { blanks.meter ≡ N.meter number }
        ensures made { IfOk result (λ s. s.0 ≡ station_seen number config) }
        ensures scroll { IfOk result (λ s. s.1 ≡ scroll_seen number []) }
        ensures bad { (result ≡ Err BusFault.BadConfig)
            ↔ (¬ (IsLongConfig config × (blanks.meter.words ≡ config.ifaces))) }
    {
        if !config.is_long_proper() || blanks.meter.ifaces() != usize::from(config.ifaces) {
            return Err(BusFault::BadConfig);
        }
        let bus = LongRingBus::new(alloc, config, size)?;
        let plan = Plan::new(alloc);
        Station::over(alloc, blanks, number, bus, config, source, plan, gate)
    }
}

impl<N: BusName, F: FaultSource + Drop, G: Gate + Drop, B: Journaled> Station<N, F, G, B> {
    /// Moves the entries that were not yet taken into a block, in order, and appends them to the entries of the scroll. The block's
    /// previous entries are dropped, and the block gets the lines about the rules. Calls that wait for room continue. A bus that
    /// keeps its whole record hands out no entries.
    ///
    /// Returns `WrongStation` exactly if the scroll belongs to another station; nothing changes then.
    ///
    /// The lock is held only while two pointers are swapped. Nothing is allocated, except for a `nofaults` line. Afterwards the
    /// station writes its entries to the memory that the block had. If the block had no memory, each call is refused with
    /// `NoMemory`.
    pub fn take_entries<R: Wait>(
        &self,
        rt: &R,
        scroll: &mut Scroll<N>,
        block: &mut Block,
    ) -> Result<(), WrongStation>
        ensures taken { OnOk result (InSome F self.now (λ held. IsTaken held block.new)) }
        ensures scroll { OnOk result (scroll.new
            ≡ scroll_with block.new.entries.entries scroll.old) }
        ensures own { OnOk result (scroll.old.number ≡ self.now.number) }
        ensures wrong { OnErr result (scroll.old.number ≢ self.now.number) }
        ensures same { OnErr result ((scroll.new ≡ scroll.old) × (block.new ≡ block.old)) }
    {
        if scroll.number() != self.number {
            return Err(WrongStation);
        }
        block.entries.clear();
        self.hold(rt).take_entries(scroll, block);
        self.room.notify_all();
        self.work.notify_all();
        Ok(())
    }

    /// Waits until `many` entries can be taken, until there is too little room for a call, or until `duration` has passed. Returns
    /// `Stopped` after `end_entries`, and `Ready` otherwise. A bus that keeps its whole record always has room.
    pub fn wait_entries<R: Wait + Clock>(
        &self,
        rt: &R,
        many: u64,
        duration: Duration,
    ) -> WakeReason {
        let state = self.state.lock(rt);
        let (state, _) = self
            .written
            .wait_timeout_while(rt, state, duration, |state| state.waits_for(many));
        if state.are_entries_over() {
            WakeReason::Stopped
        } else {
            WakeReason::Ready
        }
    }

    /// Ends all waits for entries, now and in the future. It is called after the last call of a pass. A later call does not wait
    /// for room: if there is no room, the call is refused with `NoMemory`.
    pub fn end_entries<R: Wait>(&self, rt: &R) {
        self.state.lock(rt).end_entries();
        self.written.notify_all();
        self.room.notify_all();
        self.work.notify_all();
    }
}
