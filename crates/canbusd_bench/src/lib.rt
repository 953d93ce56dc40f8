//! `canbusd bench` runs a bench on one bus with the lines of an input. `can_session::bench_noting` is the bench itself. It is
//! proved that a run without an error is a run of that bench. The bench has the names before the first `@`, the configuration that
//! the options define, and the faults of the script that the options name, if any. With `--strict`, the output of such a run
//! contains no refusal.
#![tactic(auto)]

mod bench_job;
mod ignored_notes;
mod input_notes;
mod recent;
mod watch;

pub use bench_job::run_bench;
pub use ignored_notes::tell_ignored;
