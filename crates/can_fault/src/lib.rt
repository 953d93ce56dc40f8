//! The faults of a bus: the verdict on each attempt, and the sources of these verdicts. A source is a finite map from attempt
//! numbers to verdicts. It returns the verdict that the map has for an attempt, or `Good` if the map has none. Asking twice gives
//! the same verdict.
#![tactic(auto)]

pub mod fault_source;
pub mod laws;
pub mod script;
pub mod script_lines;
pub mod verdict;

pub use fault_source::{FaultSource, Perfect};
pub use script::{Script, ScriptError};
pub use verdict::{GlobalKind, LocalKind, Verdict};
