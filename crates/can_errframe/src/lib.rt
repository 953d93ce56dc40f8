//! Error message frames. They report to the sockets of an interface its changes of state, its restart, and the faults that
//! it saw. The numbers are those of linux/can/error.h. The contracts define each frame byte for byte, with the tables of
//! `specs/ErrorMessages.antt`. No function here takes memory.
#![tactic(auto)]

pub mod codes;
pub mod fault_frames;
pub mod laws;
pub mod role;
mod side;
pub mod state_frames;

pub use fault_frames::fault_frame;
pub use role::Role;
pub use state_frames::{restart_frame, state_frame};
