ghost use Rattle.std.specs.Prelude.{◌≡◌, ◌∷◌, ◌++◌, ◌<◌, ◌≤◌, ◌↔◌, [], ℕ, List, length, drop, slice_get, IfOk, IfErr, OnOk, OnErr, option_copied};

use std::alloc::{AllocError, Global};
use thiserror::Error;

/// Why a queue could not be made.
#[derive(Debug, Clone, Copy, PartialEq, Eq, Error)]
pub enum QueueError {
    /// The requested capacity was 0.
    #[error("bad capacity")]
    BadCapacity,
    /// Memory was refused.
    #[error("no memory")]
    NoMemory,
}

impl From<AllocError> for QueueError {
    ghost use Rattle.can_queue.specs.declared.bounded_queue.QueueError.TheVariants.{NoMemory};

    ghost from_gives = { λ _ fault. fault ≡ NoMemory };

    fn from(_refused: AllocError) -> QueueError {
        QueueError::NoMemory
    }
}

/// A first-in first-out queue. Its capacity is at least 1 and never changes.
pub trait BoundedQueue<T>: Drop {
    /// The waiting items, the oldest first.
    ghost contents: { Self → List T };

    /// The largest number of waiting items.
    ghost capacity_of: { Self → ℕ };

    /// Returns an empty queue with this capacity. `NoMemory` is returned only if memory was refused.
    fn with_capacity(alloc: Global, capacity: usize) -> Result<Self, QueueError>
        ensures empty { IfOk result (λ queue. contents queue ≡ []) }
        ensures capacity { IfOk result (λ queue. capacity_of queue ≡ capacity) }
        ensures bad { (result ≡ Err QueueError.BadCapacity) ↔ (capacity ≡ 0) };

    /// Appends the item, or returns it as the error if the queue is full.
    fn try_push(&mut self, item: T) -> Result<(), T>
        ensures ok { OnOk result (length (contents self.old) < capacity_of self.old) }
        ensures pushed { OnOk result (contents self.new ≡ contents self.old ++ item ∷ []) }

        // A full queue drops nothing to make room.
        ensures full { OnErr result (capacity_of self.old ≤ length (contents self.old)) }
        ensures given_back { IfErr result (λ back. back ≡ item) }
        ensures unchanged { OnErr result (contents self.new ≡ contents self.old) }
        ensures capacity { capacity_of self.new ≡ capacity_of self.old };

    /// Takes the oldest item, or returns `None` if no item waits.
    fn pop(&mut self) -> Option<T>
        ensures taken { result ≡ slice_get (contents self.old) 0 }
        ensures rest { contents self.new ≡ drop 1 (contents self.old) }
        ensures capacity { capacity_of self.new ≡ capacity_of self.old };

    /// Returns the oldest item without taking it.
    fn front(&self) -> Option<&T>
        ensures { option_copied result ≡ slice_get (contents self.now) 0 };

    /// Returns the number of waiting items.
    fn len(&self) -> usize
        ensures { result ≡ length (contents self.now) };

    /// Returns the capacity of the queue.
    fn capacity(&self) -> usize
        ensures { result ≡ capacity_of self.now };

    /// Drops all waiting items, and returns the number of dropped items.
    fn clear(&mut self) -> usize
        ensures removed { result ≡ length (contents self.old) }
        ensures empty { contents self.new ≡ [] }
        ensures capacity { capacity_of self.new ≡ capacity_of self.old };

    /// The capacity is at least 1.
    ghost holds_some: { (queue : Self) → 0 < capacity_of queue };

    /// The number of waiting items is at most the capacity.
    ghost within: { (queue : Self) → length (contents queue) ≤ capacity_of queue };
}
