ghost use Rattle.std.specs.Prelude.{◌≡◌, ◌+◌, ◌<◌, ◌^◌, length, slice_get, IfOk, IfSome, IfNone, Err, ◌↔◌};
ghost use Rattle.can_bus.specs.Changes.{emptied, settled, with_pending, with_refused};
ghost use Rattle.can_bus.specs.State.{fresh_interface, key_in};

use can_attempt::Class;
use can_event::Pending;
use can_queue::{BoundedQueue, QueueError};
use std::alloc::Global;
use std::marker::Model;

/// The state of one interface: its transmit queue, and the numbers of frames that it took, removed,
/// finished and refused.
#[derive(Drop)]
pub struct Interface<T: BoundedQueue<Pending>> {
    queue: T,
    sent: u64,
    gone: u64,
    done: u64,
    refused: u64,
}

impl<T: BoundedQueue<Pending>> Model for Interface<T> {
    ghost use Rattle.can_bus.specs.State.{InterfaceState};

    ghost Value = { InterfaceState };

    ghost view = { λ l. record {
      waiting = T.contents l.queue;
      room = T.capacity_of l.queue;
      sent = l.sent;
      gone = l.gone;
      done = l.done;
      refused = l.refused;
    } };
}

impl<T: BoundedQueue<Pending>> Interface<T> {
    pub fn new(alloc: Global, capacity: usize) -> Result<Interface<T>, QueueError>
        ensures made { IfOk result (λ l. l ≡ fresh_interface capacity) }
        ensures bad { (result ≡ Err QueueError.BadCapacity) ↔ (capacity ≡ 0) }
    {
        Ok(Interface {
            queue: T::with_capacity(alloc, capacity)?,
            sent: 0,
            gone: 0,
            done: 0,
            refused: 0,
        })
    }

    /// Returns the frame that competes for the bus, if one waits.
    pub fn head(&self) -> Option<Pending>
        ensures { result ≡ slice_get self.now.waiting 0 }
    {
        self.queue.front().copied()
    }

    /// Returns the arbitration key of the first frame, if a frame waits.
    pub fn head_key(&self) -> Option<u32>
        ensures { result ≡ key_in (slice_get self.now.waiting 0) }
    {
        match self.head() {
            Some(pending) => Some(pending.frame.arbitration_key()),
            None => None,
        }
    }

    /// Returns the number of frames taken, which is the number of the next frame.
    pub fn sent(&self) -> u64
        ensures { result ≡ self.now.sent }
    {
        self.sent
    }

    /// Returns the number of frames that have left the queue, which is the number of the first
    /// waiting frame.
    pub fn gone(&self) -> u64
        ensures { result ≡ self.now.gone }
    {
        self.gone
    }

    /// Returns the number of frames sent successfully.
    pub fn done(&self) -> u64
        ensures { result ≡ self.now.done }
    {
        self.done
    }

    /// Returns the number of frames that were refused because the queue was full.
    pub fn refused(&self) -> u64
        ensures { result ≡ self.now.refused }
    {
        self.refused
    }

    /// Returns the number of frames that wait.
    pub fn waiting(&self) -> u64
        ensures { result ≡ length self.now.waiting }
    {
        self.queue.len() as u64
    }

    /// Queues a frame and returns its number. If the queue is full, it counts the frame as refused.
    pub fn send(&mut self, pending: Pending) -> Option<u64>
        requires sent { self.old.sent + 1 < 2 ^ 64 }
        requires refused { self.old.refused + 1 < 2 ^ 64 }
        ensures sent { IfSome result (λ n. (n ≡ self.old.sent)
            × (length self.old.waiting < self.old.room)
            × (self.new ≡ with_pending pending self.old)) }
        ensures full { IfNone result ((length self.old.waiting ≡ self.old.room)
            × (self.new ≡ with_refused self.old)) }
    {
        match self.queue.try_push(pending) {
            Ok(()) => {
                let number = self.sent;
                self.sent += 1;
                Some(number)
            }
            Err(_) => {
                self.refused += 1;
                None
            }
        }
    }

    /// Drops all waiting frames as lost. They count as frames that have left the queue.
    pub fn lose_all(&mut self)
        ensures { self.new ≡ emptied self.old }
    {
        self.queue.clear();
        self.gone = self.sent;
    }

    /// Updates the queue after an attempt with its first frame. A finished frame leaves the queue.
    /// If the interface went bus off, all waiting frames are lost.
    pub fn finish_attempt(&mut self, class: Class, is_off: bool)
        requires gone { self.old.gone + 1 < 2 ^ 64 }
        requires done { self.old.done + 1 < 2 ^ 64 }
        ensures { self.new ≡ settled class is_off self.old }
    {
        let is_done = matches!(class, Class::Done);
        if is_done {
            self.done += 1;
        }
        if is_off {
            self.lose_all();
        } else if is_done {
            let _ = self.queue.pop();
            self.gone += 1;
        }
    }
}
