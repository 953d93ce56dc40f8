//! The initial state of a bench.
ghost use Rattle.std.specs.Prelude.{◌≡◌, [], ◌↔◌, None, Err, replicate, OnOk, IfOk, IfErr};
ghost use Rattle.can_event.specs.Events.{IsConfig};
ghost use Rattle.can_session.specs.Runs.{IsStartFault};

use crate::bench_run::BenchFault;
use can_bus::{BusConfig, BusFault, RingBus};
use can_dialog::Session;
use can_frame::Moment;
use std::alloc::{AllocError, Global};

/// Returns a bus with an empty record.
pub fn make_bus(alloc: Global, config: BusConfig) -> Result<RingBus, BenchFault>
    ensures made { IfOk result (λ b. b ≡ record { config = config; history = [] }) }
    ensures proper { OnOk result (IsConfig config) }
    ensures bad { (result ≡ Err BenchFault.BadConfig) ↔ (¬ IsConfig config) }
    ensures faults { IfErr result IsStartFault }
{
    match RingBus::new(alloc, config) {
        Ok(bus) => Ok(bus),
        Err(BusFault::BadConfig) => Err(BenchFault::BadConfig),
        Err(BusFault::NoMemory) => Err(BenchFault::NoMemory),
    }
}

/// Returns the moment at which a bench starts.
pub fn the_start() -> Moment
    ensures { result ≡ 0 }
{
    match Moment::new(0) {
        Ok(moment) => moment,
        Err(_) => unreachable!(),
    }
}

/// Returns a list of 64 sessions that have not started.
pub fn no_sessions(alloc: Global) -> Result<Vec<Option<Session>>, AllocError>
    ensures { IfOk result (λ sessions. sessions.items ≡ replicate 64 None) }
{
    let mut sessions = Vec::with_capacity(alloc, 64)?;
    for _ in 0..64_usize {
        sessions.push(None)?;
    }
    Ok(sessions)
}
