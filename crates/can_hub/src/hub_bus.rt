//! The buses of a hub, and what remains of each bus at its end.
ghost use Rattle.std.specs.Prelude.{IsTrue, ◌↔◌};
ghost use Rattle.can_hub.specs.HubBuses.{IsOfLongRuns};

use can_bus::{
    BusConfig, BusFault, Event, Journaled, LongEnd, LongRingBus, Received, Record, Refusal, Reply,
    RingBus, RingState, SocketId,
};
use can_event::MAX_LIMIT;
use can_frame::Frame;
use can_record::PackedRecord;
use std::alloc::Global;
use std::marker::Model;

/// A bus of a hub. It either keeps its whole record, or is the bus of a long run, which has a higher limit of entries.
#[derive(Drop)]
pub struct HubBus {
    bus: AnyBus,
}

#[derive(Drop)]
enum AnyBus {
    Whole(RingBus),
    Long(LongRingBus),
}

impl Model for HubBus {
    ghost use Rattle.can_hub.specs.declared.hub_bus.AnyBus.{AnyBus};
    ghost use Rattle.can_hub.specs.HubBuses.{HasItsLength};

    ghost Value = { AnyBus };

    ghost view = { λ b. b.bus };

    ghost invariant = { λ b. HasItsLength b.bus };
}

/// What remains of a hub's bus at its end.
#[derive(Drop)]
pub struct HubEnd {
    end: AnyEnd,
}

#[derive(Drop)]
enum AnyEnd {
    Whole(Record),
    Long(LongEnd),
}

impl Model for HubEnd {
    ghost use Rattle.can_hub.specs.declared.hub_bus.AnyEnd.{AnyEnd};
    ghost use Rattle.can_hub.specs.HubBuses.{EndsAtItsLength};

    ghost Value = { AnyEnd };

    ghost view = { λ e. e.end };

    ghost invariant = { λ e. EndsAtItsLength e.end };
}

/// Returns whether this is the configuration of a long run, with a limit of entries that is too high for a record.
fn is_of_long_runs(config: &BusConfig) -> bool
    ensures { IsTrue result ↔ IsOfLongRuns config.now }
{
    config.limit > MAX_LIMIT && config.is_long_proper()
}

impl Journaled for HubBus {
    ghost use Rattle.can_hub.specs.HubBuses.{handed_by as by, handed_in, journal_in, left_in, places_in as places};

    ghost journal = { journal_in };

    ghost places_in = { places };

    ghost handed_out = { handed_in };

    type Left = HubEnd;

    ghost left = { left_in };

    ghost handed_by = { by };

    fn places(&self) -> usize {
        match &self.bus {
            AnyBus::Whole(bus) => Journaled::places(bus),
            AnyBus::Long(bus) => bus.places(),
        }
    }

    fn len(&self) -> u64 {
        match &self.bus {
            AnyBus::Whole(bus) => bus.len(),
            AnyBus::Long(bus) => bus.len(),
        }
    }

    fn answer(&mut self, alloc: Global, event: &Event) -> Reply {
        match &mut self.bus {
            AnyBus::Whole(bus) => bus.answer(alloc, event),
            AnyBus::Long(bus) => bus.answer(alloc, event),
        }
    }

    fn send(&mut self, id: SocketId, frame: Frame) -> Result<u64, Refusal> {
        match &mut self.bus {
            AnyBus::Whole(bus) => bus.send(id, frame),
            AnyBus::Long(bus) => bus.send(id, frame),
        }
    }

    fn receive_into(&mut self, id: SocketId, room: &mut Received) -> Result<bool, Refusal> {
        match &mut self.bus {
            AnyBus::Whole(bus) => bus.receive_into(id, room),
            AnyBus::Long(bus) => bus.receive_into(id, room),
        }
    }

    fn hand_out(&mut self, block: &mut PackedRecord) -> u64 {
        match &mut self.bus {
            AnyBus::Whole(bus) => bus.hand_out(block),
            AnyBus::Long(bus) => bus.hand_out(block),
        }
    }

    fn into_left(self) -> HubEnd {
        let HubBus { bus } = self;
        let end = match bus {
            AnyBus::Whole(bus) => AnyEnd::Whole(bus.into_record()),
            AnyBus::Long(bus) => AnyEnd::Long(bus.into_left()),
        };
        HubEnd { end }
    }

    fn state(&self) -> &RingState {
        match &self.bus {
            AnyBus::Whole(bus) => Journaled::state(bus),
            AnyBus::Long(bus) => Journaled::state(bus),
        }
    }
}

/// What remains of the buses of a hub at their end. The type determines the kind of the buses: buses with records, or buses of long
/// runs.
pub trait Leaves: Drop {
    ghost use Rattle.std.specs.Prelude.{◌≡◌, ◌↔◌, [], List, IfErr, IfOk, IsTrue, OnOk};
    ghost use Rattle.can_bus.specs.declared.bus.BusFault.TheVariants as BusFault;
    ghost use Rattle.can_event.specs.Events.{IsLongConfig};
    ghost use Rattle.can_event.specs.declared.bus_config.BusConfig.{BusConfig};
    ghost use Rattle.can_event.specs.declared.entry.Entry.{Entry};
    ghost use Rattle.can_hub.specs.HubBuses.{handed_by, handed_in, journal_in, left_in};
    ghost use Rattle.can_record.specs.Journal.{Journal};

    /// The configuration and the entries of the bus that ended.
    ghost journal: { Self → Journal };

    /// The entries that the bus had handed out, oldest first.
    ghost handed: { Self → List Entry };

    /// The configurations that buses of this kind may have.
    ghost limits: { BusConfig → Type 0 };

    /// Returns whether a bus of this kind may have this configuration.
    fn may_have(config: &BusConfig) -> bool
        ensures { IsTrue result ↔ limits config.now };

    /// Returns a new bus of this kind. Memory for all entries of the bus is allocated here, or for `size` entries on a long run.
    /// Returns `NoMemory` if an allocation failed.
    fn bus(alloc: Global, config: BusConfig, size: u32) -> Result<HubBus, BusFault>
        requires { limits config }
        ensures made { IfOk result (λ b. journal_in b ≡ record { config = config; history = [] }) }
        ensures out { IfOk result (λ b. handed_in b ≡ []) }
        ensures proper { OnOk result (IsLongConfig config) }
        ensures fault { IfErr result (λ e. e ≡ BusFault.NoMemory) };

    /// Returns what remains of a bus of this kind.
    fn of(end: HubEnd) -> Self
        requires { limits (left_in end).config }
        ensures left { journal result ≡ left_in end }
        ensures out { handed result ≡ handed_by end };
}

impl Leaves for Record {
    ghost use Rattle.std.specs.Prelude.{[]};
    ghost use Rattle.can_event.specs.Events.{IsConfig};

    ghost journal = { λ r. record { config = r.config; history = r.history } };

    ghost handed = { λ r. [] };

    ghost limits = { IsConfig };

    fn may_have(config: &BusConfig) -> bool {
        config.is_proper()
    }

    fn bus(alloc: Global, config: BusConfig, _size: u32) -> Result<HubBus, BusFault> {
        let bus = AnyBus::Whole(RingBus::new(alloc, config)?);
        Ok(HubBus { bus })
    }

    fn of(end: HubEnd) -> Record {
        let HubEnd { end } = end;
        match end {
            AnyEnd::Whole(record) => record,
            AnyEnd::Long(_) => unreachable!(),
        }
    }
}

impl Leaves for LongEnd {
    ghost use Rattle.can_bus.specs.Long.{handed_entries, journal_of};

    ghost journal = { journal_of };

    ghost handed = { handed_entries };

    ghost limits = { IsOfLongRuns };

    fn may_have(config: &BusConfig) -> bool {
        is_of_long_runs(config)
    }

    fn bus(alloc: Global, config: BusConfig, size: u32) -> Result<HubBus, BusFault> {
        let bus = AnyBus::Long(LongRingBus::new(alloc, config, size)?);
        Ok(HubBus { bus })
    }

    fn of(end: HubEnd) -> LongEnd {
        let HubEnd { end } = end;
        match end {
            AnyEnd::Long(end) => end,
            AnyEnd::Whole(_) => unreachable!(),
        }
    }
}
