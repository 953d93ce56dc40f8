//! The bench: one bus with up to 64 sessions, driven by the lines of an input.
//!
//! `bench` reads the lines, carries them out one after another, and writes the output of each line. `take_lines` carries out the
//! lines of a text on a [`Bench`] that can continue afterwards. `specs/Benches.antt` defines what a line does, and
//! `specs/Runs.antt` defines how a run ends. If the bus has bit rates, its attempts take time, as `specs/Wires.antt` defines.
//!
//! The sessions are those of can_dialog, and this crate re-exports their names. Their port is a bus with the names of its
//! interfaces ([`BusPort`]).
#![tactic(auto)]

mod attempt_faults;
mod attempt_lines;
pub mod bench_run;
mod bench_start;
pub mod bench_state;
pub mod bus_port;
mod byte_search;
pub mod ignored_input;
pub mod laws;
mod line_prefix;
pub mod lines;
mod numbers;
pub mod order;
mod read_buffer;
mod timed_attempts;
mod turns;

pub use bench_run::{BenchConfig, BenchFault, bench, bench_lines, bench_noting, take_lines};
pub use bench_state::Bench;
pub use bus_port::BusPort;
pub use can_dialog::{Dialog, Port, PortRefusal, RawSocket, Session, SessionFault, Stage};
pub use can_proto::BusLoad;
pub use ignored_input::IgnoredInput;
pub use lines::{InputFault, Lines};
pub use order::{Order, SessionNumber, read_order};
