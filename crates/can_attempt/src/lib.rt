//! One attempt to send a frame: its outcome, the receivers that accept the frame, and the change to each interface's error
//! counters. `judge` returns exactly the result that `specs/Attempts.antt` defines for the winner, the live receivers, the verdict
//! and the acknowledgement mode. It allocates nothing.
#![tactic(auto)]

pub mod ack_mode;
pub mod class;
pub mod judgement;
pub mod judging;
pub mod laws;
pub mod nodes;
mod survey;

pub use ack_mode::AckMode;
pub use class::Class;
pub use judgement::Judgement;
pub use judging::{is_fault_free, judge, judge_known};
pub use nodes::Nodes;
