use crate::class::Class;
use can_confine::Counters;
use can_frame::IfaceSet;

/// The result of an attempt.
#[derive(Debug, Clone, Copy, PartialEq, Eq)]
pub struct Judgement {
    /// The outcome of the attempt.
    pub class: Class,
    /// The receivers that accept the frame.
    pub accepted: IfaceSet,
    /// The receivers that a local fault struck.
    pub hit: IfaceSet,
    /// The error counters after the attempt, by interface number.
    pub counters: [Counters; 16],
    /// The winner, if the attempt took it off the bus. Otherwise the set is empty.
    pub off: IfaceSet,
}
