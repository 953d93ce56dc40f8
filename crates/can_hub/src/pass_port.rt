ghost use Rattle.std.specs.Prelude.{◌≡◌, IfOk, IfSome, OnErr};
ghost use Rattle.can_hub.specs.PassSteps.{GaugeReports, reply_of_station, with_socket_room};
ghost use Rattle.can_station.specs.Passes.{HadNoPassLeft};

use crate::buses::Buses;
use crate::hub_bus::HubBus;
use crate::returned::ReturnedPasses;
use crate::tally::{Counted, Tally};
use can_bus::{Event, IfaceStats, Refusal, Reply, SocketId, SocketStats};
use can_confine::Counters;
use can_dialog::{Port, PortRefusal, rule_reply};
use can_fault::FaultSource;
use can_frame::{Iface, Moment};
use can_meter::{Gauge, MeterName};
use can_proto::BusLoad;
use can_station::{BusName, Gate, Pass, Station, StationRefusal, TooManyPasses};
use std::alloc::{AllocError, Global};
use std::marker::Model;
use std::mem;
use std::sync::{Mutex, Wait};

/// A station that was entered, with a gauge of its meter and the pass.
#[derive(Drop)]
pub struct EnteredStation<'a, N: BusName, F: FaultSource + Drop, G: Gate + Drop> {
    pub(crate) station: &'a Station<N, F, G, HubBus>,
    gauge: Gauge<N>,
    pub(crate) pass: Pass<N>,
}

impl<'a, N: BusName, F: FaultSource + Drop, G: Gate + Drop> Model for EnteredStation<'a, N, F, G> {
    ghost use Rattle.can_hub.specs.PassSteps.{EnteredSeen};

    ghost Value = { EnteredSeen };

    ghost view = { λ e. record { station = e.station.now; gauge = e.gauge; pass = e.pass } };
}

/// The port of a session to the buses of a hub, with the pass of the station that the session opens.
///
/// `attach` enters the station of the bus that has the name, and takes a gauge of the station. It may use a pass that was handed
/// back. If the port had a pass already, `settle` never gets that pass. The refusals, in order of precedence: `NoInterface`,
/// `NoMemory` if the gauge cannot be allocated, `TooManyPasses`. The calls for names, counts, status, load and rules do not use the
/// pass. Every other call is the call of the station with the same name: it uses the pass, and may wait for the lock. The bus, not
/// the caller, sets the number of items that a socket can hold. If no station was entered, there is no socket and no rule.
///
/// `status` returns the last published error counters, as the gauge reads them. It takes no lock and waits for no thread. The
/// counters are 0/0 if no station was entered or its bus has no such interface. `load` takes no lock either. It returns the load
/// and the bit rates of the bus of the entered station.
#[derive(Drop)]
pub struct PassPort<'a, N: BusName, F: FaultSource + Drop, G: Gate + Drop, R: Wait> {
    pub(crate) rt: &'a R,
    pub(crate) alloc: Global,
    buses: &'a Buses<N, F, G>,
    /// Passes that were handed back and can be used again, or `None`.
    spares: Option<&'a Mutex<ReturnedPasses<N>>>,
    pub(crate) entered: Option<EnteredStation<'a, N, F, G>>,
    pub(crate) tally: Tally,
}

impl<'a, N: BusName, F: FaultSource + Drop, G: Gate + Drop, R: Wait> Model
    for PassPort<'a, N, F, G, R> {
    ghost use Rattle.can_hub.specs.PassSteps.{PortSeen};

    ghost Value = { PortSeen };

    ghost view = { λ p. record { buses = p.buses.now; entered = p.entered } };
}

impl<'a, N: BusName, F: FaultSource + Drop, G: Gate + Drop, R: Wait> PassPort<'a, N, F, G, R> {
    ghost use Rattle.std.specs.Prelude.{None, option_map};

    /// Returns a port to the buses of a hub. No station is entered yet.
    pub fn new(rt: &'a R, alloc: Global, buses: &'a Buses<N, F, G>) -> PassPort<'a, N, F, G, R>
        ensures { result ≡ record { buses = buses.now; entered = None } }
    {
        PassPort::with_spares(rt, alloc, buses, None)
    }

    /// Returns a port like `new`, which may also use a returned pass if the pass belongs to the station that is entered.
    pub fn with_spares(
        rt: &'a R,
        alloc: Global,
        buses: &'a Buses<N, F, G>,
        spares: Option<&'a Mutex<ReturnedPasses<N>>>,
    ) -> PassPort<'a, N, F, G, R>
        ensures { result ≡ record { buses = buses.now; entered = None } }
    {
        PassPort {
            rt,
            alloc,
            buses,
            spares,
            entered: None,
            tally: Tally::none(),
        }
    }

    /// Replaces this port with one that has entered no station, and returns the old port.
    pub fn take(&mut self) -> PassPort<'a, N, F, G, R>
        ensures { result ≡ self.old }
    {
        let left = PassPort::with_spares(self.rt, self.alloc, self.buses, self.spares);
        mem::replace(self, left)
    }

    /// Returns the station that was entered, or `None`.
    pub fn station(&self) -> Option<&'a Station<N, F, G, HubBus>>
        ensures { option_map (λ s. s.now) result ≡ option_map (λ e. e.station) self.now.entered }
    {
        match &self.entered {
            Some(entered) => Some(entered.station),
            None => None,
        }
    }

    /// Returns a pass of a station: a returned pass if there is one, otherwise the next pass of the station.
    fn enter(&self, station: &Station<N, F, G, HubBus>) -> Result<Pass<N>, TooManyPasses>
        ensures ok { IfOk result (λ pass. pass.number ≡ station.now.number) }
        ensures err { OnErr result (HadNoPassLeft F station.now) }
    {
        match self.spare(station.number()) {
            Some(pass) => Ok(pass),
            None => station.enter_light(self.rt),
        }
    }

    /// Returns a pass of this bus that was handed back, or `None`.
    fn spare(&self, bus: u8) -> Option<Pass<N>>
        ensures { IfSome result (λ pass. pass.number ≡ bus) }
    {
        self.spares?.lock(self.rt).give_out(bus)
    }

    /// Returns the counts of the port's calls.
    pub fn tally(&self) -> Tally {
        self.tally
    }

    /// Returns the interface that a call restarted most recently since the last call of this method. Returns `None` if there was no
    /// restart, or if that interface was taken down afterwards.
    pub fn take_restarted(&mut self) -> Option<Iface>
        ensures { self.new ≡ self.old }
    {
        self.tally.take_restarted()
    }

    /// Returns the interface that a call took down most recently since the last call of this method. Returns `None` if no interface
    /// was taken down, or if that interface was restarted afterwards.
    pub fn take_downed(&mut self) -> Option<Iface>
        ensures { self.new ≡ self.old }
    {
        self.tally.take_downed()
    }

    /// Returns the pass, or `None` if no station was entered.
    pub fn into_pass(self) -> Option<Pass<N>>
        ensures { result ≡ option_map (λ e. e.pass) self.entry.entered }
    {
        let PassPort { entered, .. } = self;
        match entered {
            Some(EnteredStation { pass, .. }) => Some(pass),
            None => None,
        }
    }
}

/// Returns the event that the station carries out for the pass. In an open event, the number of items that the socket can hold is
/// replaced with `room`, the number set by the bus.
fn sized(event: Event, room: u32) -> Event
    ensures { result ≡ with_socket_room event room }
{
    match event {
        Event::Open(iface, _) => Event::Open(iface, room),
        event => event,
    }
}

/// Converts a station's reply into a port's reply.
pub(crate) fn pass_on<V>(outcome: Result<V, StationRefusal>) -> Result<V, PortRefusal>
    ensures { result ≡ reply_of_station outcome }
{
    match outcome {
        Ok(value) => Ok(value),
        Err(StationRefusal::Bus(why)) => Err(PortRefusal::Bus(why)),
        Err(StationRefusal::WrongStation) => Err(PortRefusal::WrongStation),
    }
}

/// Returns the error counters that a gauge reads for an interface, or 0/0 if the meter has no such interface.
fn read_gauge<N: MeterName>(gauge: &mut Gauge<N>, iface: Iface) -> Counters
    ensures { GaugeReports gauge.old iface result gauge.new }
{
    let place = usize::from(iface.number());
    if place >= gauge.ifaces() {
        return Counters::zero();
    }
    gauge.status(place).counters
}

impl<'a, N: BusName, F: FaultSource + Drop, G: Gate + Drop, R: Wait> Port
    for PassPort<'a, N, F, G, R> {
    ghost use Rattle.can_hub.specs.PassSteps.{PassStep};

    ghost step = { PassStep F };

    fn call(&mut self, event: Event) -> Result<Reply, PortRefusal> {
        let Some(entered) = &mut self.entered else {
            return Err(PortRefusal::Bus(Refusal::NoSocket));
        };
        let room = self
            .buses
            .rx_capacity(usize::from(entered.station.number()));
        let counted = Counted::of(&event);
        let outcome = entered
            .station
            .call(self.rt, self.alloc, &mut entered.pass, sized(event, room));
        self.tally.add(counted, &outcome);
        pass_on(outcome)
    }

    fn put_names(&self, text: &mut Vec<u8>) -> Result<(), AllocError> {
        self.buses.put_names(text)
    }

    fn attach(&mut self, name: &[u8]) -> Result<Iface, PortRefusal> {
        let Some(found) = self.buses.find_bytes(name) else {
            return Err(PortRefusal::Bus(Refusal::NoInterface));
        };
        let station = self.buses.station(found.0);
        let Ok(gauge) = station.gauge(self.rt) else {
            return Err(PortRefusal::Bus(Refusal::NoMemory));
        };
        let Ok(pass) = self.enter(station) else {
            return Err(PortRefusal::TooManyPasses);
        };
        self.entered = Some(EnteredStation {
            station,
            gauge,
            pass,
        });
        Ok(found.1)
    }

    fn socket_stats(&mut self, socket: SocketId) -> Option<SocketStats> {
        let first = Iface::new(0).unwrap();
        let entered = self.entered.as_ref()?;
        entered.station.stats(self.rt, socket, first).0
    }

    fn iface_stats(&mut self, iface: Iface) -> Option<IfaceStats> {
        let entered = self.entered.as_ref()?;
        entered.station.stats(self.rt, SocketId(0), iface).1
    }

    fn status(&mut self, iface: Iface) -> Counters {
        let Some(entered) = &mut self.entered else {
            return Counters::zero();
        };
        read_gauge(&mut entered.gauge, iface)
    }

    fn load(&mut self, moment: Moment) -> BusLoad {
        let Some(entered) = &self.entered else {
            return BusLoad::none();
        };
        let number = usize::from(entered.station.number());
        self.buses.load_at(number, moment)
    }

    fn inject(&mut self, rule: &[u8]) -> Result<(), PortRefusal> {
        let Some(entered) = &self.entered else {
            return Err(PortRefusal::Bus(Refusal::NoSocket));
        };
        let number = usize::from(entered.station.number());
        let Some(names) = self.buses.names(number) else {
            return Err(PortRefusal::Bus(Refusal::NoSocket));
        };
        rule_reply(entered.station.inject(self.rt, rule, names))
    }

    fn rules(&mut self) -> u64 {
        let Some(entered) = &self.entered else {
            return 0;
        };
        entered.station.rules(self.rt) as u64
    }

    fn end_rules(&mut self) {
        if let Some(entered) = &self.entered {
            entered.station.end_rules(self.rt);
        }
    }
}
