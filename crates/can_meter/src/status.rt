use can_confine::Counters;

/// A publication of an interface.
#[derive(Debug, Clone, Copy, PartialEq, Eq)]
pub struct Status {
    /// The number of entries in the record, including the entry that changed the counters. It is 0 before the first publication.
    pub at: u32,
    /// The error counters after this number of entries.
    pub counters: Counters,
}
