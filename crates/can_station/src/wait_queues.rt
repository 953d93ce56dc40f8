ghost use Rattle.std.specs.Prelude.{◌<◌};

use can_bus::SocketId;
use std::array;
use std::sync::Condvar;

/// The number of queues. It equals the number of sockets that can be open at once.
pub(crate) const QUEUES: usize = 64;

/// The queues in which receivers wait for items. A call wakes only receivers whose socket got an item. Each socket has a queue.
/// Sockets whose numbers differ by a multiple of 64 share a queue.
#[derive(Drop)]
pub(crate) struct WaitQueues {
    queues: [Condvar; QUEUES],
}

impl WaitQueues {
    pub(crate) fn new() -> WaitQueues {
        WaitQueues {
            queues: array::from_fn(|_| Condvar::new()),
        }
    }

    /// Returns the queue of a socket.
    pub(crate) fn queue(&self, socket: SocketId) -> &Condvar {
        &self.queues[place_of(socket)]
    }

    /// Wakes the threads that wait in these queues.
    pub(crate) fn wake(&self, which: QueueSet) {
        if which == QueueSet::none() {
            return;
        }
        for place in 0..QUEUES {
            if which.contains(place) {
                self.queues[place].notify_all();
            }
        }
    }

    /// Wakes the threads in all queues.
    pub(crate) fn wake_all(&self) {
        for queue in &self.queues {
            queue.notify_all();
        }
    }
}

/// Returns the index of a socket's queue in the array.
fn place_of(socket: SocketId) -> usize
    ensures { result < 64 }
{
    socket.0 as usize % QUEUES
}

/// A set of queues. Bit 0 represents the first queue.
#[derive(Debug, Clone, Copy, PartialEq, Eq)]
pub(crate) struct QueueSet(u64);

impl QueueSet {
    pub(crate) fn none() -> QueueSet {
        QueueSet(0)
    }

    pub(crate) fn add(&mut self, place: usize)
        requires { place < 64 }
    {
        self.0 |= 1 << place;
    }

    fn contains(self, place: usize) -> bool
        requires { place < 64 }
    {
        self.0 >> place & 1 == 1
    }
}

/// The threads that wait in one queue.
#[derive(Debug, Clone, Copy, PartialEq, Eq)]
pub(crate) enum Waiter {
    Nobody,
    /// Threads that wait for items from this socket.
    One(SocketId),
    /// Threads that wait for items from several sockets.
    Several,
}

/// The threads that wait in each queue.
#[derive(Debug, Drop)]
pub(crate) struct Waiters {
    queues: [Waiter; QUEUES],
}

impl Waiters {
    pub(crate) fn none() -> Waiters {
        Waiters {
            queues: [Waiter::Nobody; QUEUES],
        }
    }

    /// Returns the threads that wait in a queue.
    pub(crate) fn waiter(&self, place: usize) -> Waiter
        requires { place < 64 }
    {
        self.queues[place]
    }

    /// Notes that a thread is about to wait for an item from this socket.
    pub(crate) fn add(&mut self, socket: SocketId) {
        let place = place_of(socket);
        let one = Waiter::One(socket);
        let waiter = self.queues[place];
        self.queues[place] = if waiter == Waiter::Nobody || waiter == one {
            one
        } else {
            Waiter::Several
        };
    }

    /// Notes that no thread waits in these queues.
    pub(crate) fn leave(&mut self, which: QueueSet) {
        for place in 0..QUEUES {
            if which.contains(place) {
                self.queues[place] = Waiter::Nobody;
            }
        }
    }
}
