//! The buses of a hub, as sessions and drivers use them.
ghost use Rattle.std.specs.Prelude.{◌≡◌, ◌<◌, ◌≤◌, ◌++◌, [], length, OnOk, IfOk, IfErr, All, option_map, slice_index_or, slice_get};
ghost use Rattle.can_frame.specs.Names.{place_of};
ghost use Rattle.can_proto.specs.Spelling.{spaced};
ghost use Rattle.can_hub.specs.Buses.{BusSeen, IsFirstNamed, config_on, items_on, names_on, rates_on, all_names};
ghost use Rattle.can_hub.specs.Benches.{IsWithin, NamedFrom, bus_of, buses_from};
ghost use Rattle.can_hub.specs.Settling.{AreNewScrolls};
ghost use Rattle.can_roll.specs.Seen.{scroll_seen};
ghost use Rattle.can_wire.specs.Times.{rates_of};

use crate::bench::Bench;
use crate::hub_bus::{HubBus, Leaves};
use crate::shown_time::ShownTime;
use can_bus::BusFault;
use can_dialog::put_names;
use can_fault::FaultSource;
use can_frame::{Iface, Moment, Names};
use can_meter::Gauge;
use can_proto::BusLoad;
use can_station::{BusName, Gate, Scroll, Station};
use can_wire::{Load, Timing};
use std::alloc::{AllocError, Global};
use std::marker::Model;
use std::sync::Wait;

/// A bus of a hub: its station, and the names of its interfaces.
#[derive(Drop)]
pub struct Network<N: BusName, F: FaultSource + Drop, G: Gate + Drop> {
    names: Names,
    pub(crate) station: Station<N, F, G, HubBus>,
    timing: Option<Timing>,
    pace_ms: u32,
    rx_capacity: u32,
    shown: ShownTime,
}

impl<N: BusName, F: FaultSource + Drop, G: Gate + Drop> Model for Network<N, F, G> {
    ghost use Rattle.can_hub.specs.Buses.{BusSeen};

    ghost Value = { BusSeen };

    ghost view = { λ w. record {
      number = w.station.number;
      config = w.station.config;
      names = w.names;
      timing = w.timing;
      pace_ms = w.pace_ms;
      rx_capacity = w.rx_capacity;
    } };
}

impl<N: BusName, F: FaultSource + Drop, G: Gate + Drop> Network<N, F, G> {
    /// Creates the bus of a bench with this number, and the scroll of the bus. `L` is the type that remains of the bus at its end.
    /// On a long run, memory for `size` entries is allocated. Returns `NoMemory` if an allocation failed.
    fn new<L: Leaves>(
        alloc: Global,
        number: u8,
        bench: Bench<F, G>,
        size: u32,
    ) -> Result<(Network<N, F, G>, Scroll<N>), BusFault>
        requires roll { bench.blanks.roll ≡ N.roll number }
        requires meter { bench.blanks.meter ≡ N.meter number }
        requires proper { IsWithin L.limits bench }
        ensures made { IfOk result (λ w. w.0 ≡ bus_of number bench) }
        ensures scroll { IfOk result (λ w. w.1 ≡ scroll_seen number []) }
        ensures fault { IfErr result (λ e. e ≡ BusFault.NoMemory) }
    {
        let Bench {
            names,
            blanks,
            config,
            source,
            plan,
            gate,
            timing,
            pace_ms,
            rx_capacity,
        } = bench;
        let bus = L::bus(alloc, config, size)?;
        let (station, scroll) = Station::over(
            alloc, blanks, number, bus, config, source, plan, gate,
        )?;
        let network = Network {
            names,
            station,
            timing,
            pace_ms,
            rx_capacity,
            shown: ShownTime::none(),
        };
        Ok((network, scroll))
    }
}

/// The buses of a hub. Each bus has its own station. The number of a bus is its index, starting at 0.
#[derive(Drop)]
pub struct Buses<N: BusName, F: FaultSource + Drop, G: Gate + Drop> {
    pub(crate) networks: Vec<Network<N, F, G>>,
}

impl<N: BusName, F: FaultSource + Drop, G: Gate + Drop> Model for Buses<N, F, G> {
    ghost use Rattle.std.specs.Prelude.{◌≤◌, List, length};
    ghost use Rattle.can_hub.specs.Buses.{BusSeen, NumberedFrom, AllApart, names_of};

    ghost Value = { List BusSeen };

    ghost view = { λ b. b.networks.items };

    ghost invariant = { λ b.
        NumberedFrom 0 b.networks.items × AllApart (names_of b.networks.items)
        × (length b.networks.items ≤ 16) };
}

impl<N: BusName, F: FaultSource + Drop, G: Gate + Drop> Buses<N, F, G> {
    /// Returns the number of the bus that has an interface with this name, and that interface. At most one bus has the name.
    /// Returns `None` exactly if no bus has it. The search stops at the first bus found.
    pub fn find(&self, name: &str) -> Option<(usize, Iface)>
        ensures { IsFirstNamed self.now name.now result }
    {
        self.find_bytes(name.as_bytes())
    }

    /// Does the same as `find` for a name given as bytes. Bytes that are not UTF-8 match no name.
    pub fn find_bytes(&self, name: &[u8]) -> Option<(usize, Iface)>
        ensures { IsFirstNamed self.now name.now result }
    {
        for bus in 0..self.networks.len() {
            if let Some(iface) = self.interface(bus, name) {
                return Some((bus, iface));
            }
        }
        None
    }

    /// Returns the interface of this bus with this name.
    #[tactic(auto, using(crate::proofs::Places::named_at))]
    fn interface(&self, bus: usize, name: &[u8]) -> Option<Iface>
        requires { bus < length self.now }
        ensures { (d : BusSeen) → result ≡ place_of (slice_index_or self.now bus d).names name.now }
    {
        self.networks[bus].names.find_bytes(name)
    }

    /// Returns the number of buses, from 1 to 16.
    pub fn count(&self) -> usize
        ensures count { result ≡ length self.now }
        ensures few { result ≤ 16 }
    {
        self.networks.len()
    }

    /// Returns the station of a bus.
    #[tactic(auto, using(crate::proofs::Places::number_at, crate::proofs::Places::config_at))]
    pub fn station(&self, bus: usize) -> &Station<N, F, G, HubBus>
        requires { bus < length self.now }
        ensures number { result.now.number ≡ bus }
        ensures config { config_on (slice_get self.now bus) ≡ Some result.now.config }
    {
        &self.networks[bus].station
    }

    /// Returns the bit rates of a bus, or `None` if it has none.
    #[tactic(auto, using(crate::proofs::Places::timing_at))]
    pub fn timing(&self, bus: usize) -> Option<Timing>
        requires { bus < length self.now }
        ensures { (d : BusSeen) → result ≡ (slice_index_or self.now bus d).timing }
    {
        self.networks[bus].timing
    }

    /// Returns the number of milliseconds that the driver of a bus without bit rates sleeps after each step.
    #[tactic(auto, using(crate::proofs::Places::pace_at))]
    pub fn pace_ms(&self, bus: usize) -> u32
        requires { bus < length self.now }
        ensures { (d : BusSeen) → result ≡ (slice_index_or self.now bus d).pace_ms }
    {
        self.networks[bus].pace_ms
    }

    /// Returns the number of items that a socket of this bus can hold.
    #[tactic(auto, using(crate::proofs::Places::items_at, crate::proofs::Places::items_past))]
    pub fn rx_capacity(&self, bus: usize) -> u32
        ensures { result ≡ items_on (slice_get self.now bus) }
    {
        if bus < self.networks.len() {
            self.networks[bus].rx_capacity
        } else {
            0
        }
    }

    /// Publishes the timestamp of an attempt on a bus, if there is a bus with this number. The caller does this before any receive
    /// can return an item of that attempt.
    pub fn show_end(&self, bus: usize, moment: Moment) {
        if let Some(network) = self.networks.get(bus) {
            network.shown.show_end(moment);
        }
    }

    /// Returns the timestamp of the last published attempt on a bus. Returns `None` if no attempt was published or there is no such
    /// bus. It takes no lock.
    pub fn last_end(&self, bus: usize) -> Option<Moment> {
        self.networks.get(bus)?.shown.end()
    }

    /// Publishes the load of a bus, if there is a bus with this number.
    pub fn show_load(&self, bus: usize, load: Load) {
        if let Some(network) = self.networks.get(bus) {
            network.shown.show_load(load);
        }
    }

    /// Returns the last published load of a bus, as of the timestamp `moment`, and the bit rates of the bus. The load is zero if
    /// none was published, the bit rates are 0 if the bus has none, and all values are 0 if there is no such bus. It takes no lock.
    #[tactic(auto, using(crate::proofs::Places::rates_at, crate::proofs::Places::rates_past))]
    pub fn load_at(&self, bus: usize, moment: Moment) -> BusLoad
        ensures { rates_of result.bitrate result.dbitrate ≡ rates_on (slice_get self.now bus) }
    {
        if bus < self.networks.len() {
            let network = &self.networks[bus];
            network.shown.load_at(moment, network.timing)
        } else {
            BusLoad::none()
        }
    }

    /// Returns the names of the interfaces of a bus, or `None` if there is no bus with this number.
    #[tactic(auto, using(crate::proofs::Places::names_at, crate::proofs::Places::names_past))]
    pub fn names(&self, bus: usize) -> Option<&Names>
        ensures { option_map (λ n. n.now) result ≡ names_on (slice_get self.now bus) }
    {
        if bus < self.networks.len() {
            Some(&self.networks[bus].names)
        } else {
            None
        }
    }

    /// Appends the names of all interfaces of all buses, in order, with a space before each name. Returns `AllocError` if an
    /// allocation fails.
    pub fn put_names(&self, text: &mut Vec<u8>) -> Result<(), AllocError>
        ensures { OnOk result (text.new.items ≡ text.old.items ++ spaced (all_names self.now)) }
    {
        for network in &self.networks {
            put_names(text, &network.names)?;
        }
        Ok(())
    }

    /// Stops the stations of all buses.
    pub fn stop_all<R: Wait>(&self, rt: &R) {
        for network in &self.networks {
            network.station.stop(rt);
        }
    }

    /// Ends all waits for entries, on all buses. It is called after the last call of a pass.
    pub fn end_entries<R: Wait>(&self, rt: &R) {
        for network in &self.networks {
            network.station.end_entries(rt);
        }
    }

    /// Returns a new gauge of a bus's meter. A gauge reads the error counters without the lock. Returns `AllocError` if an
    /// allocation fails. It may wait for the lock.
    pub fn gauge<R: Wait>(&self, rt: &R, bus: usize) -> Result<Gauge<N>, AllocError>
        requires { bus < length self.now }
        ensures { IfOk result (λ g. g.number ≡ bus) }
    {
        self.station(bus).gauge(rt)
    }
}

/// Creates the buses of these benches, numbered from 0, and the scrolls of the buses.
pub(crate) fn networks_of<N: BusName, F: FaultSource + Drop, G: Gate + Drop, L: Leaves>(
    alloc: Global,
    benches: Vec<Bench<F, G>>,
    size: u32,
) -> Result<(Vec<Network<N, F, G>>, Vec<Scroll<N>>), BusFault>
    requires few { length benches.items ≤ 16 }
    requires named { NamedFrom N.roll N.meter 0 benches.items }
    requires proper { All (λ b. IsWithin L.limits b) benches.items }
    ensures made { IfOk result (λ v. v.0.items ≡ buses_from 0 benches.items) }
    ensures scrolls { IfOk result (λ v.
        AreNewScrolls 0 v.1.items × (length v.1.items ≡ length v.0.items)) }
    ensures fault { IfErr result (λ e. e ≡ BusFault.NoMemory) }
{
    let mut networks = Vec::with_capacity(alloc, benches.len())?;
    let mut scrolls = Vec::with_capacity(alloc, benches.len())?;
    for bench in benches {
        let number = networks.len() as u8;
        let (network, scroll) = Network::new::<L>(alloc, number, bench, size)?;
        networks.push_reserved(network);
        scrolls.push_reserved(scroll);
    }
    Ok((networks, scrolls))
}
