//! How a station hands out its record in blocks.

ghost use Rattle.std.specs.Prelude.{◌≡◌, [], false, is_none};
ghost use Rattle.can_bus.specs.Long.{HasTail};
ghost use Rattle.can_roll.specs.Seen.{scroll_with};
ghost use Rattle.can_station.specs.Held.{LinesTaken};
ghost use Rattle.can_station.specs.Waits.{work_wake};

use crate::bus_name::BusName;
use crate::long::Block;
use crate::station_state::StationState;
use crate::waits::WakeReason;
use can_bus::Journaled;
use can_fault::FaultSource;
use can_roll::Scroll;

/// A call waits until the tail has room for this many entries, or until half of a smaller tail is free. A server adds fewer entries
/// while it holds the lock.
const HOLD_PLACES: usize = 512;

/// What a station stores about the threads that take entries.
#[derive(Drop)]
pub(crate) struct Taking {
    /// The number of entries taken so far.
    taken: u64,
    /// The smallest number of entries for which a thread waits, or `None` if no thread waits.
    wanted: Option<u64>,
    /// Whether `end_entries` was called, so that no more entries will be taken.
    is_over: bool,
}

impl Taking {
    /// Returns the initial value: no entries have been taken and no thread waits.
    pub(crate) fn none() -> Taking {
        Taking {
            taken: 0,
            wanted: None,
            is_over: false,
        }
    }

    /// Notes that a thread is about to wait for `many` entries.
    fn want(&mut self, many: u64) {
        self.wanted = Some(match self.wanted {
            None => many,
            Some(fewer) => fewer.min(many),
        });
    }
}

// The methods for the room in the tail and for the threads that take entries. Contracts describe neither.
impl<N: BusName, F: FaultSource + Drop, B: Journaled> StationState<N, F, B> {
    /// Returns the number of entries that have not yet been taken.
    fn held_back(&self) -> u64 {
        self.bus.len().saturating_sub(self.taking.taken)
    }

    /// Returns whether calls have to wait for room. They wait if the tail has room for fewer than 512 entries and more entries wait
    /// to be taken than there is room for. After `end_entries` they never wait.
    pub(crate) fn is_short(&self) -> bool {
        let places = self.bus.places();
        places < HOLD_PLACES && (places as u64) < self.held_back() && !self.taking.is_over
    }

    /// Returns whether a driver has to keep waiting, because there is no work or too little room in the bus's tail.
    pub(crate) fn is_idle_or_short(&self) -> bool
        ensures { result ≡ false → is_none (work_wake self.now) ≡ false }
    {
        match self.work_wake() {
            None => true,
            Some(WakeReason::Ready) => self.is_short(),
            Some(_) => false,
        }
    }

    /// Returns whether a thread has to keep waiting for `many` entries. If so, the thread is recorded as waiting.
    pub(crate) fn waits_for(&mut self, many: u64) -> bool
        ensures { self.new ≡ self.old }
    {
        let waits = self.held_back() < many && !self.is_short() && !self.taking.is_over;
        if waits {
            self.taking.want(many);
        }
        waits
    }

    /// Returns whether to wake the threads that wait for entries. If so, no thread is recorded as waiting afterwards.
    pub(crate) fn take_awaited(&mut self) -> bool
        ensures { self.new ≡ self.old }
    {
        let Some(many) = self.taking.wanted else {
            return false;
        };
        let is_over = self.held_back() >= many || self.is_short();
        if is_over {
            self.taking.wanted = None;
        }
        is_over
    }

    /// Returns whether `end_entries` was called.
    pub(crate) fn are_entries_over(&self) -> bool {
        self.taking.is_over
    }

    /// Notes that no more entries will be taken.
    pub(crate) fn end_entries(&mut self)
        ensures { self.new ≡ self.old }
    {
        self.taking.is_over = true;
    }

    /// Moves all entries that were not yet handed out into an empty block, in order, and adds them to the scroll. The block also
    /// receives the lines about the rules, unless an allocation fails.
    pub(crate) fn take_entries(&mut self, scroll: &mut Scroll<N>, block: &mut Block)
        requires own { scroll.old.number ≡ self.old.number }
        requires empty { block.old.entries.entries ≡ [] }
        ensures taken { HasTail self.old.journal.history block.new.entries.entries block.new.start }
        ensures scroll { scroll.new ≡ scroll_with block.new.entries.entries scroll.old }
        ensures changes { LinesTaken self.old block.new.changes.items self.new }
    {
        block.start = self.bus.hand_out(&mut block.entries);
        self.handed.hand_out(scroll, &block.entries);
        self.taking.taken = self.bus.len();
        block.changes.clear();
        if let Ok(lines) = self.changes.take() {
            block.changes = lines;
        }
    }
}
