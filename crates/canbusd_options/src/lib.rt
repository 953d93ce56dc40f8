//! The command line of canbusd: its commands, their options and their help.
//!
//! `read_options` reads the words of the command line. It is proved that the job that it returns is the one that the words ask for,
//! by the arguments and defaults of specs/Program and by clap's definition of how words are read. By this proof, a misspelt name of
//! an option is refused. Words that ask for a job are refused only if there is not enough memory.
#![tactic(auto)]

mod audit_options;
mod bench_options;
mod bit_rates;
mod bits_options;
mod bus_options;
mod bus_word;
mod command_line;
mod help;
mod recording;
mod serve_options;

pub use audit_options::{AuditOptions, AuditOutput, EventsAsked};
pub use bench_options::BenchOptions;
pub use bits_options::BitsOptions;
pub use bus_options::BusSettings;
pub use bus_word::{BusWord, FaultsWord, has_name};
pub use command_line::{Job, read_options};
pub use recording::Recording;
pub use serve_options::ServeOptions;
