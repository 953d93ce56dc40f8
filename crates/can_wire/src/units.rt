//! Conversion factors between units of time.

/// The number of nanoseconds in a second.
pub const NANOS_PER_SECOND: u64 = 1_000_000_000;

/// The number of nanoseconds in a millisecond.
pub const NANOS_PER_MILLI: u64 = 1_000_000;

/// The number of nanoseconds in a microsecond.
pub const NANOS_PER_MICRO: u64 = 1_000;

/// The number of microseconds in a second.
pub const MICROS_PER_SECOND: u64 = 1_000_000;
