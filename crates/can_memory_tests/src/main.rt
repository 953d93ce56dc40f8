//! Tests the library calls that allocate memory: their usual results, and the state that they leave if an allocation fails.
//!
//! With enough memory, the program writes one line for each trial, which says that the result is the usual one.
//! `tests/program/test_memory.py` runs the program once for each allocation and makes that allocation fail. A call that fails must
//! change nothing, and must give its usual result when it is repeated. So the output of the program is the same in every run.
#![tactic(auto)]

mod buses;
mod records;
mod stops;
mod texts;

use std::alloc::Global;
use std::process::ExitCode;
use stops::Stop;

/// The part of the library that a trial tests.
#[derive(Clone, Copy)]
enum Trial {
    Names,
    Scripts,
    Filters,
    Queues,
    Messages,
    Commands,
    Buses,
    Runs,
    Records,
    Replies,
}

const TRIALS: [(&str, Trial); 10] = [
    ("names", Trial::Names),
    ("scripts", Trial::Scripts),
    ("filters", Trial::Filters),
    ("queues", Trial::Queues),
    ("messages", Trial::Messages),
    ("commands", Trial::Commands),
    ("buses", Trial::Buses),
    ("runs", Trial::Runs),
    ("records", Trial::Records),
    ("replies", Trial::Replies),
];

fn main(rt: HostRuntime) -> ExitCode {
    let mut status = 0;
    for (name, trial) in TRIALS {
        let told = if is_as_ever(rt.alloc(), trial) {
            "as ever"
        } else {
            status = 1;
            "otherwise"
        };
        let _ = println!(rt; "{name}: {told}");
    }
    ExitCode::from(status)
}

/// Returns whether a trial succeeds. If an allocation fails in a call that changes nothing, the trial is repeated.
fn is_as_ever(alloc: Global, trial: Trial) -> bool {
    match carry_out(alloc, trial) {
        Ok(()) => true,
        Err(Stop::NoMemory) => carry_out(alloc, trial).is_ok(),
        Err(Stop::Wrong) => false,
    }
}

fn carry_out(alloc: Global, trial: Trial) -> Result<(), Stop> {
    match trial {
        Trial::Names => texts::names(alloc),
        Trial::Scripts => texts::scripts(alloc),
        Trial::Filters => texts::filters(alloc),
        Trial::Queues => texts::queues(alloc),
        Trial::Messages => texts::messages(alloc),
        Trial::Commands => texts::commands(alloc),
        Trial::Buses => buses::calls(alloc),
        Trial::Runs => buses::runs(alloc),
        Trial::Records => records::texts(alloc),
        Trial::Replies => records::replies(alloc),
    }
}
