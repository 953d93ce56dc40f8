ghost use Rattle.std.specs.Prelude.{◌≡◌, ◌+◌, ◌<◌, ◌^◌, [], ◌∷◌, length, slice_get, IfOk, Some, None, Err, ◌≢◌, false, option_copied};
ghost use Rattle.can_bus.specs.Changes.{fresh, relieved};
ghost use Rattle.can_bus.specs.Legal.{lacks_fd};
ghost use Rattle.can_event.specs.Events.{with_option};
ghost use Rattle.can_event.specs.Replies.{taken_item};
ghost use Rattle.can_bus.specs.Posts.{post_of};
ghost use Rattle.can_bus.specs.State.{offered};

use can_event::{Closed, Opt, Received, SocketId};
use can_filter::{FilterSet, Options, wants};
use can_frame::{Frame, Iface};
use can_queue::{BoundedQueue, QueueError, RingQueue};
use std::alloc::Global;
use std::marker::Model;

/// An open socket.
#[derive(Drop)]
pub struct Socket<R: BoundedQueue<Received>> {
    number: u32,
    iface: Iface,
    filters: FilterSet,
    options: Options,
    queue: R,
    taken: u64,
    dropped: u64,
}

impl<R: BoundedQueue<Received>> Model for Socket<R> {
    ghost use Rattle.can_bus.specs.State.{SocketState};

    ghost Value = { SocketState };

    ghost view = { λ s. record {
      number = s.number;
      iface = s.iface;
      capacity = R.capacity_of s.queue;
      filters = s.filters;
      options = s.options;
      waiting = R.contents s.queue;
      taken = s.taken;
      dropped = s.dropped;
    } };
}

impl<R: BoundedQueue<Received>> Socket<R> {
    pub fn new(
        alloc: Global,
        number: u32,
        iface: Iface,
        capacity: usize,
    ) -> Result<Socket<R>, QueueError>
        ensures made { IfOk result (λ s. s ≡ fresh number iface capacity) }
        ensures bad { (capacity ≢ 0) → (result ≢ Err QueueError.BadCapacity) }
    {
        Ok(Socket {
            number,
            iface,
            filters: FilterSet::all(alloc)?,
            options: Options::at_open(),
            queue: R::with_capacity(alloc, capacity)?,
            taken: 0,
            dropped: 0,
        })
    }

    pub fn number(&self) -> u32
        ensures { result ≡ self.now.number }
    {
        self.number
    }

    pub fn iface(&self) -> Iface
        ensures { result ≡ self.now.iface }
    {
        self.iface
    }

    pub fn options(&self) -> Options
        ensures { result ≡ self.now.options }
    {
        self.options
    }

    /// Returns whether the frame is an FD frame and the socket has not enabled FD frames.
    pub fn lacks_fd(&self, frame: &Frame) -> bool
        ensures { result ≡ lacks_fd frame.now self.now.options }
    {
        frame.is_fd() && !self.options.fd
    }

    pub fn taken(&self) -> u64
        ensures { result ≡ self.now.taken }
    {
        self.taken
    }

    /// Replaces the filters of the socket.
    pub fn set_filters(&mut self, filters: FilterSet)
        ensures { self.new ≡ record self.old { filters = filters } }
    {
        self.filters = filters;
    }

    /// Sets an option.
    pub fn set_option(&mut self, option: Opt)
        ensures { self.new ≡ record self.old { options = with_option option self.old.options } }
    {
        self.options = option.set_in(self.options);
    }

    /// Takes the oldest item into `room`, if there is one, and returns whether there was one.
    pub fn receive_into(&mut self, room: &mut Received) -> bool
        requires { self.old.taken + 1 < 2 ^ 64 }
        ensures taken { taken_item room.new result ≡ slice_get self.old.waiting 0 }
        ensures rest { self.new ≡ relieved (taken_item room.new result) self.old }
        ensures stays { result ≡ false → room.new ≡ room.old }
    {
        let Some(item) = self.queue.front() else {
            return false;
        };
        *room = *item;
        let _ = self.queue.pop();
        self.taken += 1;
        true
    }

    /// Returns the number of waiting items and of dropped items.
    pub fn counts(&self) -> Closed
        ensures { result ≡ record { unread = length self.now.waiting; dropped = self.now.dropped } }
    {
        Closed {
            unread: self.queue.len() as u64,
            dropped: self.dropped,
        }
    }

    /// Queues an item that passes the filters and options, or counts it as dropped if the queue is
    /// full.
    pub fn post(&mut self, received: &Received, sender: Option<SocketId>)
        requires { self.old.dropped + 1 < 2 ^ 64 }
        ensures { self.new ≡ offered (post_of received.now sender ∷ []) self.old }
    {
        let is_own = match sender {
            Some(id) => id.0 == self.number,
            None => false,
        };
        if wants(&self.filters, &self.options, &received.item, is_own) {
            if self.queue.try_push(*received).is_err() {
                self.dropped += 1;
            }
        }
    }
}

impl Socket<RingQueue<Received>> {
    /// Returns the waiting item at this place.
    pub fn item_at(&self, place: usize) -> Option<&Received>
        ensures { option_copied result ≡ slice_get self.now.waiting place }
    {
        self.queue.get(place)
    }
}
