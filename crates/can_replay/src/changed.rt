ghost use Rattle.std.specs.Prelude.{◌≡◌, ◌≤◌, ◌<◌, ◌+◌, ◌^◌, [], false, if◌then◌else◌, length, slice_get, take};
ghost use Rattle.can_replay.specs.inner.Seen.{dropped_in, put_in, told_dropped, told_put};

use can_bus::RingState;
use can_event::Closed;

/// How many sockets, counted from the first, have to be examined to find every change. The sockets after these have not changed.
#[derive(Clone, Copy)]
pub(crate) struct Ends {
    /// The number of sockets up to and including the last one with newly queued items.
    pub queued: usize,
    /// The number of sockets up to and including the last one with newly dropped items.
    pub refused: usize,
}

/// Returns how many sockets have to be examined to find every change since `look`. It compares only counts.
#[inline(never)]
pub(crate) fn changed_sockets(before: &[Closed], state: &RingState) -> Ends
    ensures queued { told_put (take result.queued before.now) state.now.sockets
        ≡ told_put before.now state.now.sockets }
    ensures refused { told_dropped (take result.refused before.now) state.now.sockets
        ≡ told_dropped before.now state.now.sockets }
    ensures within { (result.queued ≤ length before.now) × (result.refused ≤ length before.now) }
{
    if before.len() == state.open_count() {
        last_changed(before, state)
    } else {
        all_sockets(before)
    }
}

/// Returns the same result as `changed_sockets` if the number of open sockets did not change. The compiler makes this separate loop
/// faster.
fn last_changed(before: &[Closed], state: &RingState) -> Ends
    ensures queued { told_put (take result.queued before.now) state.now.sockets
        ≡ told_put before.now state.now.sockets }
    ensures refused { told_dropped (take result.refused before.now) state.now.sockets
        ≡ told_dropped before.now state.now.sockets }
    ensures within { (result.queued ≤ length before.now) × (result.refused ≤ length before.now) }
{
    let mut queued = 0;
    let mut refused = 0;
    for place in 0..before.len() {
        let (has_more, has_refused) = has_changed(before[place], state, place);
        queued = end_after(queued, place, has_more);
        refused = end_after(refused, place, has_refused);
    }
    Ends { queued, refused }
}

/// Returns the number of all sockets, for both kinds of change.
fn all_sockets(before: &[Closed]) -> Ends
    ensures queued { take result.queued before.now ≡ before.now }
    ensures refused { take result.refused before.now ≡ before.now }
    ensures within { (result.queued ≤ length before.now) × (result.refused ≤ length before.now) }
{
    let count = before.len();
    Ends {
        queued: count,
        refused: count,
    }
}

/// Returns whether items were queued on this socket since `look`, and whether items were dropped there.
fn has_changed(seen: Closed, state: &RingState, place: usize) -> (bool, bool)
    ensures queued { result.0 ≡ false → put_in (slice_get state.now.sockets place) seen ≡ [] }
    ensures refused { result.1 ≡ false → dropped_in (slice_get state.now.sockets place) seen ≡ [] }
{
    match state.socket_at(place) {
        Some((_, counts)) => (counts.unread > seen.unread, counts.dropped > seen.dropped),
        None => (false, false),
    }
}

/// Returns the index just after `place` if `is_later` is true, and otherwise `end`.
fn end_after(end: usize, place: usize, is_later: bool) -> usize
    requires { place + 1 < 2 ^ 64 }
    ensures { result ≡ (if is_later then place + 1 else end) }
{
    if is_later { place + 1 } else { end }
}
