ghost use Rattle.std.specs.Prelude.{◌≡◌};

use crate::hub_bus::HubBus;
use crate::pass_port::{PassPort, pass_on};
use can_bus::{Event, IfaceStats, Received, Refusal, Reply, SocketId, SocketStats};
use can_confine::Counters;
use can_dialog::{Port, PortRefusal};
use can_fault::FaultSource;
use can_frame::{Frame, Iface, Moment};
use can_proto::BusLoad;
use can_station::{BusName, Gate, Hold, Station};
use std::alloc::AllocError;
use std::marker::Model;
use std::sync::Wait;

/// A [`PassPort`] that is used for a few calls. Successive sends and receives share one hold of the station's lock. The first of
/// them takes the lock. The lock is released when the port is dropped, and by any other call except `put_names`, `status` and
/// `load`.
#[derive(Drop)]
pub struct LockedPort<'a, N: BusName, F: FaultSource + Drop, G: Gate + Drop, R: Wait> {
    port: PassPort<'a, N, F, G, R>,
    hold: Option<Hold<'a, N, F, G, HubBus>>,
}

impl<'a, N: BusName, F: FaultSource + Drop, G: Gate + Drop, R: Wait> Model
    for LockedPort<'a, N, F, G, R> {
    ghost use Rattle.can_hub.specs.PassSteps.{PortSeen};

    ghost Value = { PortSeen };

    ghost view = { λ p. p.port };
}

impl<'a, N: BusName, F: FaultSource + Drop, G: Gate + Drop, R: Wait> LockedPort<'a, N, F, G, R> {
    /// Creates a locked port from this port. It does not hold the lock yet.
    pub fn new(port: PassPort<'a, N, F, G, R>) -> LockedPort<'a, N, F, G, R>
        ensures { result ≡ port.entry }
    {
        LockedPort { port, hold: None }
    }

    /// Releases the lock and returns the port.
    pub fn into_port(self) -> PassPort<'a, N, F, G, R>
        ensures { result ≡ self.entry }
    {
        let LockedPort { port, hold } = self;
        drop(hold);
        port
    }
}

/// Returns the hold of this station's lock. If there is no hold, or only a hold of another station's lock, that hold is dropped and
/// this station's lock is taken.
fn hold_of<'h, 'a, N: BusName, F: FaultSource + Drop, G: Gate + Drop, R: Wait>(
    rt: &R,
    station: &'a Station<N, F, G, HubBus>,
    taken: &'h mut Option<Hold<'a, N, F, G, HubBus>>,
) -> &'h mut Hold<'a, N, F, G, HubBus>
    ensures { result.now.number ≡ station.now.number }
{
    let is_own = match taken {
        Some(hold) => hold.number() == station.number(),
        None => false,
    };
    if !is_own {
        *taken = None;
        *taken = Some(station.lock(rt));
    }
    taken.as_mut().unwrap()
}

impl<'a, N: BusName, F: FaultSource + Drop, G: Gate + Drop, R: Wait> Port
    for LockedPort<'a, N, F, G, R> {
    ghost use Rattle.can_hub.specs.PassSteps.{PassStep};

    ghost step = { PassStep F };

    fn call(&mut self, event: Event) -> Result<Reply, PortRefusal> {
        self.hold = None;
        self.port.call(event)
    }

    // Sends and receives are the most frequent calls of a session, so they create no event and no reply.
    fn send(&mut self, socket: SocketId, frame: Frame) -> Result<u64, PortRefusal> {
        let port = &mut self.port;
        let Some(entered) = &mut port.entered else {
            return Err(PortRefusal::Bus(Refusal::NoSocket));
        };
        let hold = hold_of(port.rt, entered.station, &mut self.hold);
        let outcome = hold.send(port.alloc, &mut entered.pass, socket, frame);
        port.tally.add_send(&outcome);
        pass_on(outcome)
    }

    fn receive_into(&mut self, socket: SocketId, room: &mut Received) -> Result<bool, PortRefusal> {
        let port = &mut self.port;
        let Some(entered) = &mut port.entered else {
            return Err(PortRefusal::Bus(Refusal::NoSocket));
        };
        let hold = hold_of(port.rt, entered.station, &mut self.hold);
        pass_on(hold.receive_into(port.alloc, &mut entered.pass, socket, room))
    }

    // This method needs no lock.
    fn put_names(&self, text: &mut Vec<u8>) -> Result<(), AllocError> {
        self.port.put_names(text)
    }

    fn attach(&mut self, name: &[u8]) -> Result<Iface, PortRefusal> {
        self.hold = None;
        self.port.attach(name)
    }

    fn socket_stats(&mut self, socket: SocketId) -> Option<SocketStats> {
        self.hold = None;
        self.port.socket_stats(socket)
    }

    fn iface_stats(&mut self, iface: Iface) -> Option<IfaceStats> {
        self.hold = None;
        self.port.iface_stats(iface)
    }

    // This method needs no lock.
    fn status(&mut self, iface: Iface) -> Counters {
        self.port.status(iface)
    }

    // This method needs no lock.
    fn load(&mut self, moment: Moment) -> BusLoad {
        self.port.load(moment)
    }

    fn inject(&mut self, rule: &[u8]) -> Result<(), PortRefusal> {
        self.hold = None;
        self.port.inject(rule)
    }

    fn rules(&mut self) -> u64 {
        self.hold = None;
        self.port.rules()
    }

    fn end_rules(&mut self) {
        self.hold = None;
        self.port.end_rules();
    }
}
