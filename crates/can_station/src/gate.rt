/// The points at which a station calls its gate.
#[derive(Debug, Clone, Copy, PartialEq, Eq)]
pub enum Point {
    /// Before `step` and `hold_work` take the lock.
    BeforeStep,
    /// During each step, while the lock is held.
    InStep,
    /// After a pass has made a call that takes the lock itself, when the lock is free again.
    AfterReply,
}

/// A gate at which a test can stop a thread.
pub trait Gate {
    /// Blocks until the thread may continue.
    fn at(&self, point: Point);
}

/// The gate for production use. It never stops a thread.
#[derive(Debug, Clone, Copy, PartialEq, Eq)]
pub struct Open;

impl Gate for Open {
    fn at(&self, _point: Point) {}
}
