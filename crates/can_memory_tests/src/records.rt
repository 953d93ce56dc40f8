use crate::buses::TWO;
use crate::stops::{Stop, demand};
use can_audit::{
    AuditFault, audit, candidates, projected, queued, read_record, record_text, replies_of,
};
use can_bus::{Event, Record, SocketId};
use can_frame::Iface;
use std::alloc::{AllocError, Global};

/// The record in docs/RECORD.md: interface 0 sends a frame, interface 1 receives it, and a socket takes it.
const ONE_FRAME: &str = "canbus record 1
bus 2 always 0000 10 100
open 0 256 = socket 0
open 1 1 = socket 1
send 0 123#01FF = number 0
attempt 0.000001 good = tried 0 0 123#01FF done 0002 0000
receive 1 = data 0 0 123#01FF 0.000001
receive 1 = none
close 1 = closed 0 0
end 7
";

pub fn texts(alloc: Global) -> Result<(), Stop> {
    let record = read_record(alloc, ONE_FRAME)?;
    let text = record_text(alloc, &record)?;
    demand(text.as_slice() == ONE_FRAME.as_bytes())?;
    audit(alloc, &record)?;
    let other = String::from_str(alloc, ONE_FRAME)?.replace(alloc, "done 0002", "done 0000")?;
    match audit(alloc, &read_record(alloc, &other)?) {
        Err(AuditFault::Wrong { entry, .. }) => demand(entry == 3),
        Err(AuditFault::NoMemory) => Err(Stop::NoMemory),
        Ok(()) => Err(Stop::Wrong),
    }
}

fn events_of(alloc: Global, record: &Record) -> Result<Vec<Event>, AllocError> {
    let mut events = Vec::new(alloc);
    for entry in &record.to_entries(alloc)? {
        events.push(entry.event.try_copy(alloc)?)?;
    }
    Ok(events)
}

pub fn replies(alloc: Global) -> Result<(), Stop> {
    let record = read_record(alloc, ONE_FRAME)?;
    replayed(alloc, &record)?;
    copied(alloc, &record)
}

/// Checks that replaying the events of the record gives the replies in the record.
fn replayed(alloc: Global, record: &Record) -> Result<(), Stop> {
    let replies = replies_of(alloc, &events_of(alloc, record)?, TWO)?;
    demand(replies.len() == record.len())?;
    for (reply, entry) in replies.iter().zip(&record.to_entries(alloc)?) {
        demand(*reply == entry.reply)?;
    }
    Ok(())
}

/// Checks that one frame was queued on the second socket, and that it came from the first interface.
fn copied(alloc: Global, record: &Record) -> Result<(), Stop> {
    let socket = SocketId(1);
    let first = Iface::new(0).ok_or(Stop::Wrong)?;
    let second = Iface::new(1).ok_or(Stop::Wrong)?;
    demand(queued(alloc, record, socket)?.len() == 1)?;
    demand(candidates(alloc, record, socket)?.len() == 1)?;
    demand(projected(alloc, record, first, socket)?.len() == 1)?;
    demand(projected(alloc, record, second, socket)?.is_empty())
}
