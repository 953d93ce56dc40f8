//! A bus and a bench for use inside a C program. libcanbusd.so calls this crate. `libcanbusd/canbusd.c` is the layer between this
//! crate and the program: it checks pointers and contains the error messages for the codes. Each exported function for a bus lends
//! the bus of its handle to a function of `calls` or `looks`, and has that function's contract. The contracts say what happens to
//! the bus: `specs/Locals.antt` uses the events of can_bus and the attempts of a bench. Each exported function for a bench lends a
//! bench of can_session to a function of `benching`, as `specs/Benching.antt` defines.
#![tactic(auto)]

pub mod bench_handle;
mod bench_lending;
mod benching;
mod calls;
mod codes;
pub mod exports;
pub mod handle;
mod lending;
pub mod local_bench;
pub mod local_bus;
mod looks;
mod making;
mod parts;
pub mod shapes;
mod shaping;
mod timed;
