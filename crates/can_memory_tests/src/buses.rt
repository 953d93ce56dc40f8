use crate::stops::{Stop, demand};
use can_attempt::AckMode;
use can_bus::{
    Attempt, BusConfig, Event, Received, Refusal, Reply, RingBus, RunFault, SocketId, run,
};
use can_fault::Verdict;
use can_filter::{Filter, FilterSet};
use can_frame::{CanId, Frame, Iface, IfaceSet, Item, Moment};
use std::alloc::Global;

/// A bus with two interfaces.
pub const TWO: BusConfig = BusConfig {
    ifaces: 2,
    ack: AckMode::Always,
    reporting: IfaceSet(0),
    tx_capacity: 10,
    limit: 100,
    auto_restart: 0,
};

fn iface(number: u8) -> Result<Iface, Stop> {
    Iface::new(number).ok_or(Stop::Wrong)
}

/// Opens a socket, and tries a second time if an allocation fails. The failed call must not change the bus.
fn opened(bus: &mut RingBus, alloc: Global, number: u8, capacity: u32) -> Result<SocketId, Stop> {
    let iface = iface(number)?;
    let before = bus.record().len();
    match bus.open(alloc, iface, capacity) {
        Err(Refusal::NoMemory) => {
            demand(bus.record().len() == before)?;
            Ok(bus.open(alloc, iface, capacity)?)
        }
        opened => Ok(opened?),
    }
}

/// Sets the filters of a socket, and tries a second time if an allocation fails. The failed call must not change the bus.
fn filtered(
    bus: &mut RingBus,
    alloc: Global,
    socket: SocketId,
    filters: &FilterSet,
) -> Result<(), Stop> {
    let before = bus.record().len();
    match bus.set_filters(alloc, socket, filters) {
        Err(Refusal::NoMemory) => {
            demand(bus.record().len() == before)?;
            Ok(bus.set_filters(alloc, socket, filters)?)
        }
        done => Ok(done?),
    }
}

/// Sends a frame, and makes the attempt in which the frame is transmitted.
fn cross(bus: &mut RingBus, sender: SocketId, id: u16) -> Result<(), Stop> {
    let frame = Frame::data(CanId::standard(id)?, b"\x01\xFF")?;
    let _ = bus.send(sender, frame)?;
    let _ = bus.attempt(Moment::new(1)?, Verdict::Good)?;
    Ok(())
}

/// Receives an item from a socket and returns the number of its frame, or `None` if there is no item.
fn number(bus: &mut RingBus, socket: SocketId) -> Result<Option<u64>, Stop> {
    // The checker has to see the types inside an answer before a bus returns such an answer.
    let _types: Option<(Item, Received)> = None;
    match bus.receive(socket)? {
        Some(received) => Ok(Some(received.number)),
        None => Ok(None),
    }
}

pub fn calls(alloc: Global) -> Result<(), Stop> {
    let mut bus = RingBus::new(alloc, TWO)?;
    let filters = FilterSet::from_slice(alloc, &[Filter::new(0x124, 0x7FF)?])?;
    crossed(&mut bus, alloc, &filters)
}

/// Sends two frames, only one of which passes the filters.
fn crossed(bus: &mut RingBus, alloc: Global, filters: &FilterSet) -> Result<(), Stop> {
    let sender = opened(bus, alloc, 0, 256)?;
    let receiver = opened(bus, alloc, 1, 65_536)?;
    demand(sender == SocketId(0) && receiver == SocketId(1))?;
    filtered(bus, alloc, receiver, filters)?;
    cross(bus, sender, 0x123)?;
    cross(bus, sender, 0x124)?;
    demand(number(bus, receiver)? == Some(1))?;
    demand(number(bus, receiver)? == None && bus.record().len() == 9)
}

/// Returns the reply to a list of one event. It tries a second time if an allocation fails. The failed call must not change the
/// bus.
fn answered(bus: &mut RingBus, alloc: Global, event: &[Event; 1]) -> Result<Reply, Stop> {
    let before = bus.record().len();
    for _ in 0..2 {
        match run(bus, alloc, event) {
            Ok(replies) => match replies.first() {
                Some(Reply::Refused(Refusal::NoMemory)) => demand(bus.record().len() == before)?,
                Some(reply) => return Ok(*reply),
                None => return Err(Stop::Wrong),
            },
            Err(RunFault::NoMemory) => demand(bus.record().len() == before)?,
        }
    }
    Err(Stop::NoMemory)
}

pub fn runs(alloc: Global) -> Result<(), Stop> {
    // The checker has to see the types inside a reply before a bus returns such a reply.
    let _types: Option<(Attempt, Item, Received)> = None;
    let mut bus = RingBus::new(alloc, TWO)?;
    let opening = [Event::Open(iface(1)?, 16)];
    demand(answered(&mut bus, alloc, &opening)? == Reply::Opened(SocketId(0)))?;
    demand(answered(&mut bus, alloc, &[setting(alloc)?])? == Reply::Done)?;
    demand(
        answered(&mut bus, alloc, &[Event::Close(SocketId(1))])?
            == Reply::Refused(Refusal::NoSocket),
    )?;
    demand(bus.record().len() == 3)
}

/// Returns a copy of an event that sets two filters.
fn setting(alloc: Global) -> Result<Event, Stop> {
    let filters = FilterSet::from_slice(alloc, &[Filter::new(1, 2)?, Filter::new(3, 4)?])?;
    Ok(Event::SetFilters(SocketId(0), filters).try_copy(alloc)?)
}
