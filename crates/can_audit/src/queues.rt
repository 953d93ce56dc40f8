ghost use Rattle.std.specs.Prelude.{◌≡◌, ◌++◌, reverse, slice_get, take, drop, IfOk, OnOk};
ghost use Rattle.can_bus.specs.Copies.{is_from, received_from};
ghost use Rattle.can_bus.specs.Queues.{candidates_for, taken_from, taken_after, queued_to, dropped_at};
ghost use Rattle.can_audit.specs.Histories.{OnHistory, OnRecord, Yields, ReturnsList};
ghost use Rattle.can_audit.specs.inner.Noted.{room_after};
ghost use Rattle.can_audit.specs.inner.Posted.{ReturnsCandidates};

use crate::post::{passing_posts, posts_of};
use crate::sockets::{filters_of, options_of, sockets_of};
use can_bus::{BusConfig, Entry, Event, Received, Record, Reply, SocketId};
use can_frame::{Iface, Item};
use std::alloc::{AllocError, Global};

// Computes the receive queues of a bus's sockets from its entries.

/// Returns the items that an entry offers to a socket. The result depends on the entries before it.
fn candidates_of(
    alloc: Global,
    config: BusConfig,
    past: &[Entry],
    id: SocketId,
    entry: &Entry,
) -> Result<Vec<Received>, AllocError>
    ensures { ReturnsCandidates config past.now id.0 entry.now result }
{
    let sockets = sockets_of(alloc, past)?;
    if !sockets.is_open(id) {
        return Ok(Vec::new(alloc));
    }
    let posts = posts_of(alloc, config, past, sockets.iface_of(id), entry)?;
    let filters = filters_of(alloc, past, id)?;
    passing_posts(alloc, &filters, &options_of(past, id), id, &posts)
}

/// Returns all items that these entries offer to a socket, in order.
fn candidates_for(
    alloc: Global,
    config: BusConfig,
    past: &[Entry],
    id: SocketId,
) -> Result<Vec<Received>, AllocError>
    ensures { OnHistory config past.now (λ h. ReturnsList result (candidates_for config h id.0)) }
{
    let mut offered = Vec::new(alloc);
    for k in 0..past.len() {
        let more = candidates_of(alloc, config, &past[..k], id, &past[k])?;
        offered.extend_from_slice(&more)?;
    }
    Ok(offered)
}

/// Adds the item that an entry took from a socket, if it took one.
fn note_taken(entry: &Entry, id: SocketId, taken: &mut Vec<Received>) -> Result<(), AllocError>
    ensures { OnOk result (taken.new.items ≡
        taken_after entry.now.event entry.now.reply id.0 taken.old.items) }
{
    match &entry.event {
        Event::Receive(of) => {
            if of.0 == id.0 {
                if let Reply::Received(Some(received)) = &entry.reply {
                    taken.push(*received)?;
                }
            }
        }
        _ => {}
    }
    Ok(())
}

/// Returns the items that were taken from a socket, in order.
pub(crate) fn taken_from(
    alloc: Global,
    past: &[Entry],
    id: SocketId,
) -> Result<Vec<Received>, AllocError>
    ensures { ReturnsList result (taken_from (reverse past.now) id.0) }
{
    let mut taken = Vec::new(alloc);
    for entry in past {
        note_taken(entry, id, &mut taken)?;
    }
    Ok(taken)
}

/// The items offered to a socket: the queued items and the dropped items.
#[derive(Drop)]
pub(crate) struct Arrivals {
    pub queued: Vec<Received>,
    pub dropped: Vec<Received>,
}

/// Returns how many more items can be queued on a socket on which `queued` items have been queued so far.
fn room_of(alloc: Global, past: &[Entry], id: SocketId, queued: usize) -> Result<u128, AllocError>
    ensures { Yields result (room_after (reverse past.now) id.0 queued) }
{
    let capacity = sockets_of(alloc, past)?.capacity_of(id);
    let taken = taken_from(alloc, past, id)?.len();
    Ok((capacity as u128 + taken as u128).saturating_sub(queued as u128))
}

/// Queues as many items as fit and drops the rest.
fn admit(arrivals: &mut Arrivals, room: u128, candidates: &[Received]) -> Result<(), AllocError>
    ensures queued { OnOk result (arrivals.new.queued.items ≡ arrivals.old.queued.items ++
        take room candidates.now) }
    ensures dropped { OnOk result (arrivals.new.dropped.items ≡ arrivals.old.dropped.items ++
        drop room candidates.now) }
{
    let mut fit = candidates.len();
    if room < fit as u128 {
        fit = room as usize;
    }
    arrivals.queued.extend_from_slice(&candidates[..fit])?;
    arrivals.dropped.extend_from_slice(&candidates[fit..])?;
    Ok(())
}

/// Returns the item at index `place`, if there is one.
pub(crate) fn item_at(items: &[Received], place: usize) -> Option<Received>
    ensures { result ≡ slice_get items.now place }
{
    items.get(place).copied()
}

/// Returns the items that were queued on a socket and the items that were dropped, each in order.
pub(crate) fn arrivals_at(
    alloc: Global,
    config: BusConfig,
    past: &[Entry],
    id: SocketId,
) -> Result<Arrivals, AllocError>
    ensures queued { OnHistory config past.now
        (λ h. IfOk result (λ a. a.queued.items ≡ queued_to config h id.0)) }
    ensures dropped { OnHistory config past.now
        (λ h. IfOk result (λ a. a.dropped.items ≡ dropped_at config h id.0)) }
{
    let mut arrivals = Arrivals {
        queued: Vec::new(alloc),
        dropped: Vec::new(alloc),
    };
    for k in 0..past.len() {
        let room = room_of(alloc, &past[..k], id, arrivals.queued.len())?;
        let offered = candidates_of(alloc, config, &past[..k], id, &past[k])?;
        admit(&mut arrivals, room, &offered)?;
    }
    Ok(arrivals)
}

/// Returns all items that were queued on a socket, in order, including items that were taken later. A socket that was never opened
/// has none. If no bus could have made the record, nothing is proved about the result. The running time grows with the cube of the
/// number of entries.
pub fn queued(alloc: Global, record: &Record, id: SocketId) -> Result<Vec<Received>, AllocError>
    ensures { OnRecord «record».now (λ c h. ReturnsList result (queued_to c h id.0)) }
{
    let entries = record.to_entries(alloc)?;
    Ok(arrivals_at(alloc, record.config(), &entries, id)?.queued)
}

/// Returns the items that reached a socket's interface while the socket was open and that passed the socket's filters and options.
/// The items are in order and include dropped items. A socket that was never opened has none. If no bus could have made the record,
/// nothing is proved about the result. The running time grows with the cube of the number of entries.
pub fn candidates(alloc: Global, record: &Record, id: SocketId) -> Result<Vec<Received>, AllocError>
    ensures { OnRecord «record».now (λ c h. ReturnsList result (candidates_for c h id.0)) }
{
    let entries = record.to_entries(alloc)?;
    candidates_for(alloc, record.config(), &entries, id)
}

/// Returns whether the item is a data frame from this interface.
fn is_from(iface: Iface, received: &Received) -> bool
    ensures { result ≡ is_from iface received.now }
{
    match &received.item {
        Item::Data(_) => received.from.number() == iface.number(),
        Item::Error(_) => false,
    }
}

/// Returns the data frames from one interface that were queued on a socket, in order. Each has its number at that interface. If no
/// bus could have made the record, nothing is proved about the result. The running time grows with the cube of the number of
/// entries.
pub fn projected(
    alloc: Global,
    record: &Record,
    iface: Iface,
    id: SocketId,
) -> Result<Vec<Received>, AllocError>
    ensures { OnRecord «record».now (λ c h. ReturnsList result (received_from c h iface id.0)) }
{
    let all = queued(alloc, record, id)?;
    let mut of_iface = Vec::new(alloc);
    for received in &all {
        if is_from(iface, received) {
            of_iface.push(*received)?;
        }
    }
    Ok(of_iface)
}
