ghost use Rattle.std.specs.Prelude.{◌≡◌, ℕ, ◌≤◌, ◌↔◌, List, [], ◌∷◌, ◌++◌, reverse, length, OnOk, Err};
ghost use Rattle.can_event.specs.declared.entry.Entry.{Entry as AnEntry};
ghost use Rattle.can_event.specs.Events.{IsConfig, max_limit};
ghost use Rattle.can_bus.specs.Legal.{lacks_fd, legal_reply, if_open};
ghost use Rattle.can_bus.specs.Sockets.{options_of};
ghost use Rattle.can_event.specs.declared.event.Event.TheVariants as event;
ghost use Rattle.can_event.specs.declared.reply.Reply.TheVariants as reply;
ghost use Rattle.can_event.specs.Replies.{entry_of};
ghost use Rattle.can_audit.specs.Histories.{OnHistory, Yields, ReturnsList};
ghost use Rattle.can_audit.specs.inner.Replied.{ReturnsReply};
ghost use Rattle.can_replay.specs.Histories.{IsHistory};
ghost use Rattle.can_replay.specs.Replies.{replies_after, reply_after, entries_after};

use crate::attempts::attempt_reply;
use crate::counters::nodes_of;
use crate::queues::{arrivals_at, item_at, taken_from};
use crate::sockets::{options_of, sockets_of};
use crate::transmit::{gone_count, sent_by};
use can_bus::{Attempt, BusConfig, Closed, Entry, Event, Received, Refusal, Reply, SocketId};
use can_event::MAX_RX_CAPACITY;
use can_frame::{Frame, Iface, Item};
use std::alloc::{AllocError, Global};
use thiserror::Error;

/// The reason why `replies_of` returns no replies.
#[derive(Debug, Clone, Copy, PartialEq, Eq, Error)]
pub enum ReplayFault {
    /// The configuration is outside the limits of a bus.
    #[error("bad bus")]
    BadConfig,
    /// The allocator ran out of memory.
    #[error("no memory")]
    NoMemory,
}

/// Returns the reply to an event that opens a socket.
fn open_reply(
    alloc: Global,
    config: BusConfig,
    past: &[Entry],
    iface: Iface,
    capacity: u32,
) -> Result<Reply, AllocError>
    requires { length past.now ≤ max_limit }
    ensures { Yields result (legal_reply config (reverse past.now) (event.Open iface capacity)) }
{
    if iface.number() >= config.ifaces {
        return Ok(Reply::Refused(Refusal::NoInterface));
    }
    if capacity < 1 || capacity > MAX_RX_CAPACITY {
        return Ok(Reply::Refused(Refusal::BadCapacity));
    }
    let sockets = sockets_of(alloc, past)?;
    if sockets.numbers.len() >= 64 {
        return Ok(Reply::Refused(Refusal::TooManySockets));
    }
    Ok(Reply::Opened(SocketId(sockets.places.len() as u32)))
}

/// Returns the reply to an event that closes a socket.
fn close_reply(
    alloc: Global,
    config: BusConfig,
    past: &[Entry],
    id: SocketId,
) -> Result<Reply, AllocError>
    ensures { ReturnsReply config past.now (event.Close id) result }
{
    if !sockets_of(alloc, past)?.is_open(id) {
        return Ok(Reply::Refused(Refusal::NoSocket));
    }
    let arrivals = arrivals_at(alloc, config, past, id)?;
    let taken = taken_from(alloc, past, id)?.len();
    Ok(Reply::Closed(Closed {
        unread: arrivals.queued.len().saturating_sub(taken) as u64,
        dropped: arrivals.dropped.len() as u64,
    }))
}

/// Returns the reply to an event that sets the filters or an option of a socket.
fn set_reply(alloc: Global, past: &[Entry], id: SocketId) -> Result<Reply, AllocError>
    ensures { Yields result (if_open (reverse past.now) id.0 reply.Done) }
{
    if !sockets_of(alloc, past)?.is_open(id) {
        return Ok(Reply::Refused(Refusal::NoSocket));
    }
    Ok(Reply::Done)
}

/// Returns whether the frame is an FD frame but the socket's option for FD frames is off.
fn lacks_fd(past: &[Entry], id: SocketId, frame: Frame) -> bool
    ensures { result ≡ lacks_fd frame (options_of (reverse past.now) id.0) }
{
    frame.is_fd() && !options_of(past, id).fd
}

/// Returns the reply to an event that sends a frame.
fn send_reply(
    alloc: Global,
    config: BusConfig,
    past: &[Entry],
    id: SocketId,
    frame: Frame,
) -> Result<Reply, AllocError>
    ensures { ReturnsReply config past.now (event.Send id frame) result }
{
    let sockets = sockets_of(alloc, past)?;
    if !sockets.is_open(id) {
        return Ok(Reply::Refused(Refusal::NoSocket));
    }
    if lacks_fd(past, id, frame) {
        return Ok(Reply::Refused(Refusal::FdOff));
    }
    let iface = sockets.iface_of(id);
    let state = nodes_of(config, past).counters_of(iface).state();
    if state.is_off() {
        return Ok(Reply::Refused(Refusal::BusOff));
    }
    if state.is_down() {
        return Ok(Reply::Refused(Refusal::Down));
    }
    let sent = sent_by(alloc, past, iface)?.len();
    let gone = gone_count(alloc, past, iface)?;
    if sent.saturating_sub(gone) == config.tx_capacity as usize {
        return Ok(Reply::Refused(Refusal::NoBuffers));
    }
    Ok(Reply::Sent(sent as u64))
}

/// Returns the reply to an event that receives an item.
fn receive_reply(
    alloc: Global,
    config: BusConfig,
    past: &[Entry],
    id: SocketId,
) -> Result<Reply, AllocError>
    ensures { ReturnsReply config past.now (event.Receive id) result }
{
    if !sockets_of(alloc, past)?.is_open(id) {
        return Ok(Reply::Refused(Refusal::NoSocket));
    }
    let arrivals = arrivals_at(alloc, config, past, id)?;
    let taken = taken_from(alloc, past, id)?.len();
    Ok(Reply::Received(item_at(&arrivals.queued, taken)))
}

/// Returns the reply to an event that restarts an interface.
fn restart_reply(config: BusConfig, past: &[Entry], iface: Iface) -> Reply
    ensures { (m : ℕ) →
        OnHistory config past.now (λ h. result ≡ legal_reply config h (event.Restart iface m)) }
{
    if iface.number() >= config.ifaces {
        return Reply::Refused(Refusal::NoInterface);
    }
    if nodes_of(config, past).is_silent(iface) {
        Reply::Done
    } else {
        Reply::Refused(Refusal::NotBusOff)
    }
}

/// Returns the reply to an event that takes an interface down.
fn down_reply(config: BusConfig, iface: Iface) -> Reply
    ensures { (past : List AnEntry) (m : ℕ) →
        result ≡ legal_reply config past (event.Down iface m) }
{
    if iface.number() >= config.ifaces {
        Reply::Refused(Refusal::NoInterface)
    } else {
        Reply::Done
    }
}

/// Returns the reply to an event after these entries, if the record has room for another entry.
fn legal_reply(
    alloc: Global,
    config: BusConfig,
    past: &[Entry],
    event: &Event,
) -> Result<Reply, AllocError>
    requires { length past.now ≤ max_limit }
    ensures { ReturnsReply config past.now event.now result }
{
    match event {
        Event::Open(iface, capacity) => open_reply(alloc, config, past, *iface, *capacity),
        Event::Close(id) => close_reply(alloc, config, past, *id),
        Event::SetFilters(id, _) => set_reply(alloc, past, *id),
        Event::SetOption(id, _) => set_reply(alloc, past, *id),
        Event::Send(id, frame) => send_reply(alloc, config, past, *id, *frame),
        Event::Receive(id) => receive_reply(alloc, config, past, *id),
        Event::Attempt(moment, verdict) => { attempt_reply(alloc, config, past, *moment, *verdict) }
        Event::Restart(iface, _) => Ok(restart_reply(config, past, *iface)),
        Event::Down(iface, _) => Ok(down_reply(config, *iface)),
    }
}

/// Adds an entry for an event and its reply.
fn note(past: &mut Vec<Entry>, event: Event, reply: Reply) -> Result<(), AllocError>
    ensures { OnOk result (past.new.items ≡ past.old.items ++ entry_of event reply ∷ []) }
{
    // The checker has to see the types inside a reply before an entry is pushed to a vector.
    let _types: Option<(Attempt, Item, Received)> = None;
    past.push(Entry { event, reply })?;
    Ok(())
}

/// Returns the reply to one event. Adds the event and its reply to the entries, unless the entries have reached the limit.
fn answer(
    alloc: Global,
    config: BusConfig,
    past: &mut Vec<Entry>,
    event: &Event,
) -> Result<Reply, AllocError>
    requires { IsHistory config (reverse past.old.items) }
    ensures reply { Yields result (reply_after config (reverse past.old.items) event.now) }
    ensures entries { OnOk result (reverse past.new.items ≡
        entries_after config (reverse past.old.items) event.now) }
{
    if past.len() >= config.limit as usize {
        return Ok(Reply::Refused(Refusal::RecordFull));
    }
    let reply = legal_reply(alloc, config, past, event)?;
    note(past, event.try_copy(alloc)?, reply)?;
    Ok(reply)
}

/// Returns the replies to these events. Each reply depends on the entries before it.
fn replies(alloc: Global, events: &[Event], config: BusConfig) -> Result<Vec<Reply>, AllocError>
    requires { IsConfig config }
    ensures { ReturnsList result (replies_after config [] events.now) }
{
    let _types: Option<(Attempt, Item, Received)> = None;
    let mut past = Vec::new(alloc);
    let mut replies = Vec::new(alloc);
    for event in events {
        let reply = answer(alloc, config, &mut past, event)?;
        replies.push(reply)?;
    }
    Ok(replies)
}

/// Returns the replies of a new bus with this configuration to these events, one reply for each event, in order. Each reply follows
/// from the entries before it. After the entries have reached the limit, every reply is `RecordFull`. The result is `BadConfig` if
/// and only if no bus can have this configuration. The running time grows with the fourth power of the number of events.
pub fn replies_of(
    alloc: Global,
    events: &[Event],
    config: BusConfig,
) -> Result<Vec<Reply>, ReplayFault>
    ensures replies { ReturnsList result (replies_after config [] events.now) }
    ensures proper { OnOk result (IsConfig config) }
    ensures bad { (result ≡ Err ReplayFault.BadConfig) ↔ (¬ IsConfig config) }
{
    if !config.is_proper() {
        return Err(ReplayFault::BadConfig);
    }
    match replies(alloc, events, config) {
        Ok(replies) => Ok(replies),
        Err(_) => Err(ReplayFault::NoMemory),
    }
}
