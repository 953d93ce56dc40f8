ghost use Rattle.std.specs.Prelude.{◌≡◌, ◌<◌, ◌≤◌, length, IfOk, MatchResult, ◌↔◌};
ghost use Rattle.can_hub.specs.Buses.{BusSeen, IsFirstNamed};
ghost use Rattle.can_hub.specs.Benches.{MakeHub, MakeHubWithin, MakeLongHub, NamedFrom, buses_from};
ghost use Rattle.can_hub.specs.HubBuses.{handed_by, left_in};
ghost use Rattle.can_hub.specs.Settling.{AllConfigured, AllHanded, AllOwn, AllOwnScrolls, AllSettleIn, AreNewScrolls, FirstForeign, FirstForeignScroll};

use crate::bench::{Bench, make_hub};
use crate::buses::{Buses, Network, networks_of};
use crate::hub_bus::{HubEnd, Leaves};
use can_bus::{BusFault, LongEnd, Record};
use can_fault::FaultSource;
use can_frame::Iface;
use can_meter::Gauge;
use can_station::{BusName, Gate, Pass, Scroll, Settled};
use std::alloc::{AllocError, Global};
use std::marker::Model;
use std::sync::Wait;
use thiserror::Error;

/// The first bus that cannot be settled, because a pass in its list or its scroll belongs to another station.
#[derive(Debug, Clone, Copy, PartialEq, Eq, Error)]
#[error("bus {bus}: wrong station")]
pub struct SettleFault {
    pub bus: usize,
}

/// Buses that are settled together. Each bus leaves a record, or on a long run the entries that were not taken.
#[derive(Drop)]
pub struct Hub<N: BusName, F: FaultSource + Drop, G: Gate + Drop, L: Leaves = Record> {
    buses: Buses<N, F, G>,
    // A buffer for what remains of each bus at its end.
    settled: Vec<Settled<L>>,
}

impl<N: BusName, F: FaultSource + Drop, G: Gate + Drop, L: Leaves> Model for Hub<N, F, G, L> {
    ghost use Rattle.std.specs.Prelude.{◌≡◌, ◌≤◌, [], All, List, length, vec_capacity};
    ghost use Rattle.can_hub.specs.Buses.{BusSeen};

    ghost Value = { List BusSeen };

    ghost view = { λ h. h.buses };

    ghost invariant = { λ h.
        All (λ b. L.limits b.config) h.buses
        × (h.settled.items ≡ []) × (length h.buses ≤ vec_capacity h.settled) };
}

impl<N: BusName, F: FaultSource + Drop, G: Gate + Drop> Hub<N, F, G> {
    /// Makes a station with an empty record for each bench. The buses are numbered from 0, in the order of the benches. Memory for
    /// all entries of each record and for the results of `settle` is allocated here.
    ///
    /// Returns `BadConfig` exactly if there are no benches, if there are more than 16, or if a bench is invalid. A bench is invalid
    /// if its configuration is outside the limits of a bus, or if its receive capacity is outside the limits of a socket. It is
    /// also invalid if its number of interfaces differs from the number of blanks or names, or if another bench has one of its
    /// names. Returns `NoMemory` if an allocation failed.
    pub fn new(alloc: Global, benches: Vec<Bench<F, G>>) -> Result<Hub<N, F, G>, BusFault>
        requires { NamedFrom N.roll N.meter 0 benches.items }
        ensures made { IfOk result (λ h. h ≡ buses_from 0 benches.items) }
        ensures bad { (result ≡ Err BusFault.BadConfig) ↔ (¬ MakeHub benches.items) }
    {
        let (hub, _) = Hub::make(alloc, benches, 0)?;
        Ok(hub)
    }
}

impl<N: BusName, F: FaultSource + Drop, G: Gate + Drop> Hub<N, F, G, LongEnd> {
    /// Creates a hub with buses for long runs, and the scroll of each bus. Each bus keeps only the entries that were not yet taken.
    /// Memory for `size` entries of each bus is allocated here; `size` is `TAIL_SIZE` except in tests.
    ///
    /// Returns `BadConfig` in the same cases as `new`, but with the limits of a long run. A limit of entries that is small enough
    /// for a record is refused too.
    pub fn new_long(
        alloc: Global,
        benches: Vec<Bench<F, G>>,
        size: u32,
    ) -> Result<(Hub<N, F, G, LongEnd>, Vec<Scroll<N>>), BusFault>
        requires { NamedFrom N.roll N.meter 0 benches.items }
        ensures made { IfOk result (λ h. h.0 ≡ buses_from 0 benches.items) }
        ensures scrolls { IfOk result (λ h.
            AreNewScrolls 0 h.1.items × (length h.1.items ≡ length h.0)) }
        ensures bad { (result ≡ Err BusFault.BadConfig) ↔ (¬ MakeLongHub benches.items) }
    {
        Hub::make(alloc, benches, size)
    }
}

impl<N: BusName, F: FaultSource + Drop, G: Gate + Drop, L: Leaves> Hub<N, F, G, L> {
    /// Creates a station over a new bus for each bench, and the scroll of each bus. The buses either all keep records or are all
    /// for long runs. On a long run, memory for `size` entries of each bus is allocated.
    pub fn make(
        alloc: Global,
        benches: Vec<Bench<F, G>>,
        size: u32,
    ) -> Result<(Hub<N, F, G, L>, Vec<Scroll<N>>), BusFault>
        requires { NamedFrom N.roll N.meter 0 benches.items }
        ensures made { IfOk result (λ h. h.0 ≡ buses_from 0 benches.items) }
        ensures scrolls { IfOk result (λ h.
            AreNewScrolls 0 h.1.items × (length h.1.items ≡ length h.0)) }
        ensures bad { (result ≡ Err BusFault.BadConfig) ↔ (¬ MakeHubWithin L.limits benches.items) }
    {
        if !make_hub::<L, F, G>(&benches) {
            return Err(BusFault::BadConfig);
        }
        let settled = Vec::with_capacity(alloc, benches.len())?;
        let (networks, scrolls) = networks_of::<N, F, G, L>(alloc, benches, size)?;
        let buses = Buses { networks };
        Ok((Hub { buses, settled }, scrolls))
    }

    /// Returns the buses of the hub.
    pub fn buses(&self) -> &Buses<N, F, G>
        ensures { result.now ≡ self.now }
    {
        &self.buses
    }

    /// See `Buses::find`.
    pub fn find(&self, name: &str) -> Option<(usize, Iface)>
        ensures { IsFirstNamed self.now name.now result }
    {
        self.buses.find(name)
    }

    /// See `Buses::count`.
    pub fn count(&self) -> usize
        ensures count { result ≡ length self.now }
        ensures few { result ≤ 16 }
    {
        self.buses.count()
    }

    /// See `Buses::gauge`.
    pub fn gauge<R: Wait>(&self, rt: &R, bus: usize) -> Result<Gauge<N>, AllocError>
        requires { bus < length self.now }
        ensures { IfOk result (λ g. g.number ≡ bus) }
    {
        self.buses.gauge(rt, bus)
    }

    /// Takes the passes of each bus back, and returns what remains of each bus. The entries of a bus are a legal history for its
    /// configuration. They can be assigned to passes so that the calls of each returned pass are its entries, in order. Nothing is
    /// allocated.
    ///
    /// Returns `SettleFault` exactly if a list contains a pass of another station. The error gives the first such bus, and nothing
    /// is returned.
    pub fn settle<R: Wait>(
        self,
        rt: &R,
        alloc: Global,
        passes: Vec<Vec<Pass<N>>>,
    ) -> Result<Vec<Settled<L>>, SettleFault>
        requires { length passes.items ≡ length self }
        ensures settled { IfOk result (λ v. AllSettleIn L.journal passes.items v.items) }
        ensures configured { IfOk result (λ v. AllConfigured L.journal self v.items) }
        ensures refused { MatchResult result (λ _. AllOwn 0 passes.items)
            (λ f. FirstForeign passes.items f.bus) }
    {
        let Hub { buses, mut settled } = self;
        let Buses { networks } = buses;
        let mut lists = passes.into_iter();
        for network in networks {
            let Network { station, .. } = network;
            let Some(own) = lists.next() else {
                unreachable!()
            };
            let bus = settled.len();
            let Ok(left) = station.settle(rt, own, Vec::new(alloc)) else {
                return Err(SettleFault { bus });
            };
            settled.push_reserved(settled_as(left));
        }
        Ok(settled)
    }

    /// Like `settle`, but also takes the scroll of each bus back. A scroll contains the entries that its bus handed out, which are
    /// the first entries of a long run.
    ///
    /// Also returns `SettleFault` exactly if a scroll belongs to another station.
    pub fn settle_scrolls<R: Wait>(
        self,
        rt: &R,
        alloc: Global,
        passes: Vec<Vec<Pass<N>>>,
        scrolls: Vec<Scroll<N>>,
    ) -> Result<Vec<Settled<L>>, SettleFault>
        requires passes { length passes.items ≡ length self }
        requires scrolls { length scrolls.items ≡ length self }
        ensures handed { IfOk result (λ v. AllHanded L.handed scrolls.items v.items) }
        ensures settled { IfOk result (λ v. AllSettleIn L.journal passes.items v.items) }
        ensures configured { IfOk result (λ v. AllConfigured L.journal self v.items) }
        ensures refused { MatchResult result
            (λ _. AllOwn 0 passes.items × AllOwnScrolls 0 scrolls.items)
            (λ f. FirstForeignScroll passes.items scrolls.items f.bus) }
    {
        let Hub { buses, mut settled } = self;
        let Buses { networks } = buses;
        let mut lists = passes.into_iter();
        let mut scrolls = scrolls.into_iter();
        for network in networks {
            let Network { station, .. } = network;
            let Some(own) = lists.next() else {
                unreachable!()
            };
            let Some(scroll) = scrolls.next() else {
                unreachable!()
            };
            let Ok(left) = station.settle_scroll(rt, scroll, own, Vec::new(alloc)) else {
                return Err(SettleFault { bus: settled.len() });
            };
            settled.push_reserved(settled_as(left));
        }
        Ok(settled)
    }
}

/// Converts what remains of a bus to the type for its kind of bus.
fn settled_as<L: Leaves>(left: Settled<HubEnd>) -> Settled<L>
    requires { L.limits (left_in left.history).config }
    ensures history { L.journal result.history ≡ left_in left.history }
    ensures out { L.handed result.history ≡ handed_by left.history }
    ensures passes { result.passes ≡ left.passes }
{
    Settled {
        history: L::of(left.history),
        passes: left.passes,
    }
}
