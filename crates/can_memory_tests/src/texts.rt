use crate::stops::{Stop, demand};
use can_fault::{FaultSource, LocalKind, Script, Verdict};
use can_filter::{Filter, FilterSet};
use can_frame::{Iface, IfaceSet, Names};
use can_proto::{Command, Incoming, Message, Mode, Reader};
use can_queue::{BoundedQueue, ListQueue, RingQueue};
use std::alloc::{AllocError, Global};

pub fn names(alloc: Global) -> Result<(), Stop> {
    let names = Names::read(alloc, "can0,can1,body-control")?;
    demand(names.count() == 3 && names.find("body-control") == Iface::new(2))
}

const SCRIPT: &str = "# faults\n0 good\n5 local crc can1\n\n7 lastbit\n12345678 global bit\n";

pub fn scripts(alloc: Global) -> Result<(), Stop> {
    let names = Names::read(alloc, "can0,can1")?;
    let mut script = Script::read(alloc, SCRIPT, &names)?;
    demand(
        script.verdict(5) == Verdict::Local(IfaceSet(0b10), LocalKind::Crc)
            && script.verdict(7) == Verdict::LastBit
            && script.verdict(8) == Verdict::Good,
    )
}

pub fn filters(alloc: Global) -> Result<(), Stop> {
    let both = [Filter::new(0x123, 0x7FF)?, Filter::new(0x2000_0124, 0x7FF)?];
    copies_filters(alloc, &both)?;
    let all = FilterSet::all(alloc)?;
    demand(all.filters().len() == 1 && all.passes(0x124, true))
}

/// Checks that a copy of a filter set has the same filters, and that both sets give the same result for one frame.
fn copies_filters(alloc: Global, filters: &[Filter]) -> Result<(), Stop> {
    let set = FilterSet::from_slice(alloc, filters)?;
    let copy = set.try_copy(alloc)?;
    demand(copy.filters() == filters)?;
    demand(copy.passes(0x124, false) == set.passes(0x124, false))
}

fn holds_two<Q: BoundedQueue<u32>>(alloc: Global) -> Result<(), Stop> {
    let mut queue = Q::with_capacity(alloc, 2)?;
    let full = (queue.try_push(1), queue.try_push(2), queue.try_push(3));
    demand(full == (Ok(()), Ok(()), Err(3)) && queue.pop() == Some(1))
}

pub fn queues(alloc: Global) -> Result<(), Stop> {
    holds_two::<ListQueue<u32>>(alloc)?;
    holds_two::<RingQueue<u32>>(alloc)
}

/// Feeds a piece to a reader, and tries a second time if an allocation fails. The failed call must not change the reader.
fn fed(reader: &mut Reader, alloc: Global, piece: &[u8]) -> Result<Vec<Incoming>, Stop> {
    match reader.feed(alloc, piece) {
        Ok(given) => Ok(given),
        Err(AllocError) => Ok(reader.feed(alloc, piece)?),
    }
}

/// Returns the message that ends in a piece, which must contain the end of exactly one message.
fn message(reader: &mut Reader, alloc: Global, piece: &[u8]) -> Result<Message, Stop> {
    let mut given = fed(reader, alloc, piece)?;
    match (given.pop(), given.pop()) {
        (Some(Incoming::Message(message)), None) => Ok(message),
        _ => Err(Stop::Wrong),
    }
}

/// Checks that a piece contains the end of no message.
fn gives_nothing(reader: &mut Reader, alloc: Global, piece: &[u8]) -> Result<(), Stop> {
    let given = fed(reader, alloc, piece)?;
    demand(given.is_empty())
}

/// Checks that exactly one message ends in a piece, and that the message contains these bytes.
fn gives_message(
    reader: &mut Reader,
    alloc: Global,
    piece: &[u8],
    inside: &[u8],
) -> Result<(), Stop> {
    let message = message(reader, alloc, piece)?;
    demand(message.inside() == inside)
}

/// Checks that a piece makes a message too long, so that the reader reports this.
fn gives_too_long(reader: &mut Reader, alloc: Global, piece: &[u8]) -> Result<(), Stop> {
    let given = fed(reader, alloc, piece)?;
    demand(given.len() == 1 && matches!(given.first(), Some(Incoming::TooLong)))
}

pub fn messages(alloc: Global) -> Result<(), Stop> {
    let mut reader = Reader::new(alloc)?;
    gives_nothing(&mut reader, alloc, b"x< send 123 2")?;
    gives_message(&mut reader, alloc, b" 1 2 >< ec", b" send 123 2 1 2 ")?;
    gives_message(&mut reader, alloc, b"ho >x", b" echo ")?;
    gives_nothing(&mut reader, alloc, &[b'<'; 2000])?;
    gives_too_long(&mut reader, alloc, &[b'y'; 2000])
}

pub fn commands(alloc: Global) -> Result<(), Stop> {
    let mut reader = Reader::new(alloc)?;
    let open = message(&mut reader, alloc, b"< open body-control >")?;
    opens_body_control(alloc, &open)?;
    let filter = message(&mut reader, alloc, b"< filter 2 123 7FF 20000124 7FF >")?;
    sets_two_filters(alloc, &filter)?;
    let fault = message(&mut reader, alloc, b"< fault next  32\tfrom can0 lastbit >")?;
    gives_a_rule(alloc, &fault)
}

fn opens_body_control(alloc: Global, message: &Message) -> Result<(), Stop> {
    match Command::read(alloc, Mode::NoBus, message)? {
        Command::Open(name) => demand(name.bytes() == b"body-control".as_slice()),
        _ => Err(Stop::Wrong),
    }
}

fn sets_two_filters(alloc: Global, message: &Message) -> Result<(), Stop> {
    match Command::read(alloc, Mode::Raw, message)? {
        Command::SetFilters(set) => demand(set.filters().len() == 2),
        _ => Err(Stop::Wrong),
    }
}

fn gives_a_rule(alloc: Global, message: &Message) -> Result<(), Stop> {
    match Command::read(alloc, Mode::Opened, message)? {
        Command::Fault(rule) => demand(rule.bytes() == b"next 32 from can0 lastbit".as_slice()),
        _ => Err(Stop::Wrong),
    }
}
