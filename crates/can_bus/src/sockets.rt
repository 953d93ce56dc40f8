ghost use Rattle.std.specs.Prelude.{◌≡◌, ◌+◌, ◌<◌, ◌^◌, ◌==◌, All, IfSome, IfNone, IsSomeAnd, slice_get, length, true, false, Ok, ◌≢◌, option_copied};
ghost use Rattle.std.specs.List.{list_any};
ghost use Rattle.std.specs.Option.{option_map};
ghost use Rattle.can_bus.specs.Changes.{Receives, Sets, Refilters, Closes, Opens};
ghost use Rattle.can_event.specs.Events.{with_option};
ghost use Rattle.can_event.specs.Replies.{receive_reply};
ghost use Rattle.can_bus.specs.Stats.{ReportsSocket, numbered_counts, waiting_at};

use crate::socket::Socket;
use crate::state::State;
use can_arbiter::Arbiter;
use can_event::{
    Closed, MAX_RX_CAPACITY, Opt, Pending, Received, Refusal, Reply, SocketId, SocketStats,
};
use can_filter::FilterSet;
use can_frame::Iface;
use can_queue::{BoundedQueue, RingQueue};
use can_record::receive_reply;
use std::alloc::Global;

/// Finds the place of a socket: it equals its number until an earlier socket is closed.
pub fn find<R: BoundedQueue<Received>>(sockets: &[Socket<R>], id: SocketId) -> Option<usize>
    ensures found { IfSome result (λ k.
        IsSomeAnd (slice_get sockets.now k) (λ v. v.number ≡ id.0)) }
    ensures within { IfSome result (λ k. k < length sockets.now) }
    ensures absent { IfNone result (list_any (λ v. v.number == id.0) sockets.now ≡ false) }
{
    let place = id.0 as usize;
    if place < sockets.len() && sockets[place].number() == id.0 {
        return Some(place);
    }
    for (i, socket) in sockets.iter().enumerate() {
        if socket.number() == id.0 {
            return Some(i);
        }
    }
    None
}

impl<T: BoundedQueue<Pending>, R: BoundedQueue<Received>, A: Arbiter> State<T, R, A> {
    /// Opens a socket under the next number.
    pub(crate) fn open(&mut self, alloc: Global, iface: Iface, capacity: u32) -> Reply
        requires { self.old.opened + 1 < 2 ^ 32 }
        ensures { Opens self.old iface capacity result self.new }
    {
        if iface.number() >= self.nodes.count {
            return Reply::Refused(Refusal::NoInterface);
        }
        if capacity < 1 || capacity > MAX_RX_CAPACITY {
            return Reply::Refused(Refusal::BadCapacity);
        }
        if self.sockets.len() >= 64 {
            return Reply::Refused(Refusal::TooManySockets);
        }
        let number = self.opened;
        let Ok(socket) = Socket::new(alloc, number, iface, capacity as usize) else {
            return Reply::Refused(Refusal::NoMemory);
        };
        if self.sockets.push(socket).is_err() {
            return Reply::Refused(Refusal::NoMemory);
        }
        self.opened += 1;
        Reply::Opened(SocketId(number))
    }

    /// Closes a socket.
    pub(crate) fn close(&mut self, id: SocketId) -> Reply
        ensures { Closes self.old id.0 result self.new }
    {
        let Some(k) = find(&self.sockets, id) else {
            return Reply::Refused(Refusal::NoSocket);
        };
        let socket = self.sockets.remove(k);
        Reply::Closed(socket.counts())
    }

    /// Sets the filters of a socket to a copy of these. It takes memory before it looks up the
    /// socket.
    pub(crate) fn set_filters(&mut self, alloc: Global, id: SocketId, filters: &FilterSet) -> Reply
        ensures { Refilters self.old id.0 filters.now result self.new }
    {
        let Ok(compiled) = filters.try_compile(alloc) else {
            return Reply::Refused(Refusal::NoMemory);
        };
        let Some(k) = find(&self.sockets, id) else {
            return Reply::Refused(Refusal::NoSocket);
        };
        let socket = &mut self.sockets[k];
        socket.set_filters(compiled);
        Reply::Done
    }

    /// Sets an option of a socket.
    pub(crate) fn set_option(&mut self, id: SocketId, option: Opt) -> Reply
        ensures { Sets self.old id.0 (λ v. record v { options = with_option option v.options })
            result self.new }
    {
        let Some(k) = find(&self.sockets, id) else {
            return Reply::Refused(Refusal::NoSocket);
        };
        let socket = &mut self.sockets[k];
        socket.set_option(option);
        Reply::Done
    }

    /// Takes the oldest item of a socket into `room`, if there is one, and returns whether there
    /// was one.
    pub(crate) fn receive_into(
        &mut self,
        id: SocketId,
        room: &mut Received,
    ) -> Result<bool, Refusal>
        requires { All (λ v. v.taken + 1 < 2 ^ 64) self.old.sockets }
        ensures receives { Receives self.old id.0 (receive_reply room.new result) self.new }
        ensures stays { result ≢ Ok true → room.new ≡ room.old }
    {
        let Some(k) = find(&self.sockets, id) else {
            return Err(Refusal::NoSocket);
        };
        let socket = &mut self.sockets[k];
        Ok(socket.receive_into(room))
    }

    /// Takes the oldest item of a socket, if there is one.
    pub(crate) fn receive(&mut self, id: SocketId) -> Reply
        requires { All (λ v. v.taken + 1 < 2 ^ 64) self.old.sockets }
        ensures { Receives self.old id.0 result self.new }
    {
        let mut room = Received::nothing();
        let outcome = self.receive_into(id, &mut room);
        receive_reply(outcome, &room)
    }

    /// Returns the number of open sockets.
    pub fn open_count(&self) -> usize
        ensures { result ≡ length self.now.sockets }
    {
        self.sockets.len()
    }

    /// Returns the number of the open socket at this place, with the number of its waiting and of
    /// its dropped items.
    pub fn socket_at(&self, place: usize) -> Option<(SocketId, Closed)>
        ensures { result ≡ option_map numbered_counts (slice_get self.now.sockets place) }
    {
        let socket = self.sockets.get(place)?;
        Some((SocketId(socket.number()), socket.counts()))
    }

    /// Returns the counts of an open socket.
    pub fn socket_stats(&self, id: SocketId) -> Option<SocketStats>
        requires { All (λ v. v.taken + length v.waiting < 2 ^ 64) self.now.sockets }
        ensures { ReportsSocket self.now.sockets id.0 result }
    {
        let Some(k) = find(&self.sockets, id) else {
            return None;
        };
        let socket = &self.sockets[k];
        let counts = socket.counts();
        let taken = socket.taken();
        Some(SocketStats {
            queued: taken + counts.unread,
            dropped: counts.dropped,
            taken,
        })
    }
}

impl<T: BoundedQueue<Pending>, A: Arbiter> State<T, RingQueue<Received>, A> {
    /// Returns the waiting item at place `place` on the open socket at place `before`.
    pub fn item_at(&self, place: usize, before: usize) -> Option<&Received>
        ensures { option_copied result ≡ slice_get (waiting_at self.now.sockets place) before }
    {
        self.sockets.get(place)?.item_at(before)
    }
}
