ghost use Rattle.std.specs.Prelude.{◌≡◌, ◌<◌, ◌≤◌, length, option_copied, slice_get};

use crate::bounded_queue::{BoundedQueue, QueueError};
use circular_buffer::HeapCircularBuffer;
use std::alloc::Global;

/// A queue in a ring buffer: one block of memory that `with_capacity` takes and that never grows. After the end of the
/// block the items continue at its start.
///
/// `try_push`, `pop`, `front`, `get` and `len` take constant time. The time of `clear` grows with the number of waiting
/// items. If the ring is full, a new item is returned to the caller: no waiting item is overwritten.
#[derive(Drop)]
pub struct RingQueue<T> {
    ring: HeapCircularBuffer<T>,
    ghost holds_some: { 0 < ring.capacity },
    ghost within: { length ring.items ≤ ring.capacity },
}

impl<T> RingQueue<T> {
    /// Returns the waiting item at this place. The oldest item has place 0.
    pub fn get(&self, place: usize) -> Option<&T>
        ensures { option_copied result ≡ slice_get self.now.ring.items place }
    {
        self.ring.get(place)
    }
}

impl<T: Drop> BoundedQueue<T> for RingQueue<T> {
    ghost contents = { λ queue. queue.ring.items };

    ghost capacity_of = { λ queue. queue.ring.capacity };

    fn with_capacity(alloc: Global, capacity: usize) -> Result<Self, QueueError> {
        if capacity == 0 {
            return Err(QueueError::BadCapacity);
        }
        let ring = HeapCircularBuffer::with_capacity(alloc, capacity)?;
        Ok(RingQueue { ring })
    }

    fn try_push(&mut self, item: T) -> Result<(), T> {
        self.ring.try_push_back(item)
    }

    fn pop(&mut self) -> Option<T> {
        self.ring.pop_front()
    }

    fn front(&self) -> Option<&T> {
        self.ring.front()
    }

    fn len(&self) -> usize {
        self.ring.len()
    }

    fn capacity(&self) -> usize {
        self.ring.capacity()
    }

    fn clear(&mut self) -> usize {
        let removed = self.ring.len();
        self.ring.clear();
        removed
    }

    ghost holds_some = { λ queue. queue.holds_some };

    ghost within = { λ queue. queue.within };
}
