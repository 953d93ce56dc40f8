//! The output of record entries in long runs. While the server runs, each bus has a thread that takes its entries in blocks.
ghost use Rattle.std.specs.Prelude.{◌≡◌};

use crate::given::Given;
use can_bus::Journaled;
use can_fault::FaultSource;
use can_roll::RollName;
use can_station::{Block, BusName, Gate, Scroll, Station, WakeReason, WrongStation};
use std::alloc::{AllocError, Global};
use std::marker::Model;
use std::sync::Wait;
use std::time::{Clock, Duration};

/// The time in seconds that a thread waits for the first entry of a block before it checks again.
const IDLE_SECONDS: u64 = 1;

/// A destination for the record entries of one bus in a long run.
pub trait Keeper {
    ghost use Rattle.std.specs.Prelude.{◌≡◌, ◌++◌, List};
    ghost use Rattle.can_event.specs.declared.entry.Entry.{Entry};
    ghost use Rattle.can_server.specs.Keeping.{AreLegalLast};

    /// The entries that the keeper has been given, oldest first.
    ghost given: { Self → List Entry };

    /// Stores the entries of a block, which follow the entries of the previous block. The block may be empty if only time has
    /// passed. No lock is held during the call, and the bus continues until its tail is full.
    fn keep(&mut self, block: &Block)
        requires { AreLegalLast block.now.entries.entries }
        ensures { given self.new ≡ given self.old ++ block.now.entries.entries };
}

/// The keeper of a server without scribes. The buses of such a server keep their own records.
#[derive(Drop)]
pub struct Discard {
    given: Given,
}

impl Keeper for Discard {
    ghost given = { λ keeper. keeper.given };

    fn keep(&mut self, block: &Block) {
        self.given.note(&block.entries);
    }
}

/// A keeper and the scroll of its bus. The keeper was given exactly the entries that the scroll has taken. Contracts see the
/// scroll.
#[derive(Drop)]
pub struct ScrollKeeper<N: RollName, K: Keeper + Drop> {
    keeper: K,
    scroll: Scroll<N>,
}

impl<N: RollName, K: Keeper + Drop> Model for ScrollKeeper<N, K> {
    ghost use Rattle.std.specs.Prelude.{◌≡◌};
    ghost use Rattle.can_roll.specs.Seen.{ScrollSeen};

    ghost Value = { ScrollSeen };

    ghost view = { λ k. k.scroll };

    ghost invariant = { λ k. K.given k.keeper ≡ k.scroll.entries };
}

impl<N: BusName, K: Keeper + Drop> ScrollKeeper<N, K> {
    /// Pairs a keeper with a scroll. The keeper must have been given exactly the entries that the scroll has taken.
    pub fn new(keeper: K, scroll: Scroll<N>) -> ScrollKeeper<N, K>
        requires { K.given keeper ≡ scroll.entries }
        ensures { result ≡ scroll }
    {
        ScrollKeeper { keeper, scroll }
    }

    /// Returns the index of the bus.
    pub fn bus(&self) -> usize
        ensures { result ≡ self.now.number }
    {
        usize::from(self.scroll.number())
    }

    /// Returns the keeper and the scroll. The keeper has been given all entries that the scroll has taken.
    pub fn into_parts(self) -> (K, Scroll<N>)
        ensures given { K.given result.0 ≡ self.entries }
        ensures scroll { result.1 ≡ self }
    {
        let ScrollKeeper { keeper, scroll } = self;
        (keeper, scroll)
    }

    /// Takes the new entries of a station into a block and gives the block to the keeper.
    fn keep_next<F: FaultSource + Drop, G: Gate + Drop, B: Journaled, R: Wait>(
        &mut self,
        rt: &R,
        station: &Station<N, F, G, B>,
        block: &mut Block,
    ) -> Result<(), WrongStation>
        ensures { self.new.number ≡ self.old.number }
    {
        station.take_entries(rt, &mut self.scroll, block)?;
        self.keeper.keep(block);
        Ok(())
    }
}

/// Takes the entries of a bus in blocks and gives the blocks to a keeper.
#[derive(Drop)]
pub struct Scribe<'k, N: RollName, K: Keeper + Drop> {
    kept: &'k mut ScrollKeeper<N, K>,
    block: Block,
    /// The number of entries that the scribe waits for. `patience` is the longest wait after the first of these entries.
    many: u64,
    patience: Duration,
}

impl<'k, N: BusName, K: Keeper + Drop> Scribe<'k, N, K> {
    /// Returns a scribe for the scroll's bus. The scribe has memory for `size` entries, which is the capacity of the bus's tail. It
    /// gives the keeper a block when half of them have arrived, or when `patience` has passed since the first entry.
    pub fn new(
        alloc: Global,
        size: u32,
        patience: Duration,
        kept: &'k mut ScrollKeeper<N, K>,
    ) -> Result<Scribe<'k, N, K>, AllocError> {
        Ok(Scribe {
            kept,
            block: Block::new(alloc, size)?,
            many: u64::from(size / 2),
            patience,
        })
    }

    /// Returns the index of the bus in its hub.
    pub fn bus(&self) -> usize {
        self.kept.bus()
    }

    /// Gives the keeper all entries of the station, until the station accepts no more calls. If the scroll belongs to another
    /// station, it returns `WrongStation` and gives the keeper nothing.
    pub fn keep_all<F: FaultSource + Drop, G: Gate + Drop, B: Journaled, R: Wait + Clock>(
        self,
        rt: &R,
        station: &Station<N, F, G, B>,
    ) -> Result<(), WrongStation> {
        let Scribe {
            kept,
            mut block,
            many,
            patience,
        } = self;
        for _ in rt.forever() {
            let _ = station.wait_entries(rt, 1, Duration::from_secs(IDLE_SECONDS));
            let wake = station.wait_entries(rt, many, patience);
            kept.keep_next(rt, station, &mut block)?;
            if wake == WakeReason::Stopped {
                break;
            }
        }
        Ok(())
    }
}
