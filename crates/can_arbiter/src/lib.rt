//! Decides which of the interfaces that hold a key wins arbitration: the interface with the lowest key, or with the lowest number
//! if keys are equal. An arbiter is a finite map from the 16 interfaces to keys. Callers use it only through the trait: `set` and
//! `clear` change the key of one interface, and `winner` returns the interface that wins. If the keys are the keys of frames, the
//! laws also hold for the arbitration bits of these frames.
#![tactic(auto)]

pub mod arbiter;
pub mod index_arbiter;
pub mod laws;
pub mod scan_arbiter;

pub use arbiter::Arbiter;
pub use index_arbiter::IndexArbiter;
pub use scan_arbiter::ScanArbiter;
