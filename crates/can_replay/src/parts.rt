ghost use Rattle.std.specs.Prelude.{◌≡◌, ◌++◌, ◌==◌, codes, length, slice_get, take, OnOk, if◌then◌else◌};
ghost use Rattle.can_bus.specs.Stats.{waiting_at};
ghost use Rattle.can_replay.specs.Words.{part_named, parted};
ghost use Rattle.can_replay.specs.inner.Seen.{dropped_in, item_in, put_in, told_counts, told_dropped, told_lost, told_put};

use crate::words::{put_counts, put_dropped, put_item, put_lost};
use can_bus::RingState;
use can_confine::Counters;
use can_event::{Closed, SocketId};
use std::alloc::AllocError;

/// Writes the error counts that changed, in the order of the interfaces.
pub(crate) fn put_all_counts(
    out: &mut Vec<u8>,
    before: &[Counters; 16],
    after: &[Counters; 16],
) -> Result<(), AllocError>
    ensures { OnOk result (out.new.items ≡ out.old.items ++ told_counts before.now after.now) }
{
    for i in 0..16 {
        put_counts(out, i, before[i], after[i])?;
    }
    Ok(())
}

/// Writes how many frames each interface has lost since `look`, in the order of the interfaces.
pub(crate) fn put_all_lost(
    out: &mut Vec<u8>,
    before: &[u64],
    state: &RingState,
) -> Result<(), AllocError>
    ensures { OnOk result (out.new.items ≡ out.old.items ++
        told_lost before.now state.now.interfaces) }
{
    for i in 0..before.len() {
        let lost = state.lost_at(i).unwrap_or(0);
        put_lost(out, i, lost.saturating_sub(before[i]))?;
    }
    Ok(())
}

/// Writes the part that lists the items queued since `look`, in the order of the sockets. It writes nothing if there are none.
pub(crate) fn put_queued(
    out: &mut Vec<u8>,
    before: &[Closed],
    state: &RingState,
) -> Result<(), AllocError>
    ensures { OnOk result (out.new.items ≡ out.old.items ++
        part_named (codes "put") (told_put before.now state.now.sockets)) }
{
    if before.is_empty() {
        return Ok(());
    }
    let start = out.len();
    out.extend_from_slice(b"; put")?;
    let end = out.len();
    put_all_items(out, before, state)?;
    drop_bare(out, start, end);
    Ok(())
}

/// Writes the part that lists how many items were dropped at each socket since `look`, in the order of the sockets. It writes
/// nothing if there are none.
pub(crate) fn put_refused(
    out: &mut Vec<u8>,
    before: &[Closed],
    state: &RingState,
) -> Result<(), AllocError>
    ensures { OnOk result (out.new.items ≡ out.old.items ++
        part_named (codes "dropped") (told_dropped before.now state.now.sockets)) }
{
    if before.is_empty() {
        return Ok(());
    }
    let start = out.len();
    out.extend_from_slice(b"; dropped")?;
    let end = out.len();
    put_all_dropped(out, before, state)?;
    drop_bare(out, start, end);
    Ok(())
}

/// Removes the name of a part, which is stored at `start..end`, if nothing was written after it.
fn drop_bare(out: &mut Vec<u8>, start: usize, end: usize)
    ensures { out.new.items ≡
        (if length out.old.items == end then take start out.old.items else out.old.items) }
{
    if out.len() == end {
        out.truncate(start);
    }
}

fn put_all_items(out: &mut Vec<u8>, before: &[Closed], state: &RingState) -> Result<(), AllocError>
    ensures { OnOk result (out.new.items ≡ out.old.items ++
        parted (told_put before.now state.now.sockets)) }
{
    for place in 0..before.len() {
        put_items(out, state, place, before[place])?;
    }
    Ok(())
}

/// Writes the items that were queued on a socket since `look`.
fn put_items(
    out: &mut Vec<u8>,
    state: &RingState,
    place: usize,
    seen: Closed,
) -> Result<(), AllocError>
    ensures { OnOk result (out.new.items ≡ out.old.items ++
        parted (put_in (slice_get state.now.sockets place) seen)) }
{
    let Some((id, counts)) = state.socket_at(place) else {
        return Ok(());
    };
    for k in seen.unread as usize..counts.unread as usize {
        put_item_at(out, state, place, id, k)?;
    }
    Ok(())
}

/// Writes one item of a socket, if the socket has an item at this index.
fn put_item_at(
    out: &mut Vec<u8>,
    state: &RingState,
    place: usize,
    id: SocketId,
    k: usize,
) -> Result<(), AllocError>
    ensures { OnOk result (out.new.items ≡ out.old.items ++
        parted (item_in id.0 (slice_get (waiting_at state.now.sockets place) k))) }
{
    match state.item_at(place, k) {
        Some(received) => put_item(out, id, &received.item),
        None => Ok(()),
    }
}

fn put_all_dropped(
    out: &mut Vec<u8>,
    before: &[Closed],
    state: &RingState,
) -> Result<(), AllocError>
    ensures { OnOk result (out.new.items ≡ out.old.items ++
        parted (told_dropped before.now state.now.sockets)) }
{
    for place in 0..before.len() {
        put_dropped_at(out, state, place, before[place])?;
    }
    Ok(())
}

/// Writes the number of items dropped at a socket since `look`.
fn put_dropped_at(
    out: &mut Vec<u8>,
    state: &RingState,
    place: usize,
    seen: Closed,
) -> Result<(), AllocError>
    ensures { OnOk result (out.new.items ≡ out.old.items ++
        parted (dropped_in (slice_get state.now.sockets place) seen)) }
{
    match state.socket_at(place) {
        Some((id, counts)) => put_dropped(out, id, counts.dropped.saturating_sub(seen.dropped)),
        None => Ok(()),
    }
}
