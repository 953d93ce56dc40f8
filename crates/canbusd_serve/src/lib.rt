//! `canbusd serve`: a server for the buses in its options, and the logs and records that it writes. The server itself is
//! implemented in can_server. Three properties are proved. First, a server consists of the buses that its options describe. Second,
//! a server that ends without an error has written the number of entries of each bus's legal record to its output. In a long run,
//! the wanted files of each bus exist and contain its whole history. Third, if a server ends with an error, the names or the script
//! of a bus are wrong, or the server cannot serve its buses, as `IsOfServer` lists. No contract says how many items a socket holds.
#![tactic(auto)]

mod buses_notes;
mod ends;
mod file_keeper;
mod host;
mod listening;
mod live_files;
mod lock_file;
mod notices;
mod serve_files;
mod serve_job;
mod socket_file;

pub use serve_job::{ServerRuntime, run_serve};
