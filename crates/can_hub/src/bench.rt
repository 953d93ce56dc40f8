ghost use Rattle.std.specs.Prelude.{◌<◌, [], IsTrue, ◌↔◌, length, All, Contains, slice_index_or};
ghost use Rattle.can_hub.specs.Buses.{ShareNoName, ApartFrom, AllApart};
ghost use Rattle.can_hub.specs.Benches.{IsWithin, MakeHubWithin, bench_names};

use crate::hub_bus::Leaves;
use can_bus::BusConfig;
use can_event::MAX_RX_CAPACITY;
use can_fault::FaultSource;
use can_frame::{Iface, Names};
use can_rules::Plan;
use can_station::{Blanks, Gate};
use can_wire::Timing;

/// The parts from which one bus of a hub is made.
#[derive(Drop)]
pub struct Bench<F: FaultSource + Drop, G: Gate + Drop> {
    /// The names of the bus's interfaces. There must be one name for each interface of the configuration.
    pub names: Names,
    /// The blanks of the station. They must be for the same number of interfaces.
    pub blanks: Blanks,
    pub config: BusConfig,
    /// The source of the bus's faults. For every attempt that the source makes faulty, its verdict is used.
    pub source: F,
    /// The planned faults. They are used for attempts for which the source has no fault.
    pub plan: Plan,
    /// The gate at which a test can stop a thread.
    pub gate: G,
    /// The bit rates of the bus, or `None`. With bit rates, the driver makes each attempt when the bus is free.
    pub timing: Option<Timing>,
    /// The number of milliseconds that the driver of a bus without bit rates sleeps after each step.
    pub pace_ms: u32,
    /// The number of items that a socket can hold. It must be between 1 and 65,536.
    pub rx_capacity: u32,
}

impl<F: FaultSource + Drop, G: Gate + Drop> Bench<F, G> {
    /// Returns whether a bus can be made from these parts.
    fn is_proper<L: Leaves>(&self) -> bool
        ensures { IsTrue result ↔ IsWithin L.limits self.now }
    {
        let ifaces = self.config.ifaces;
        L::may_have(&self.config)
            && self.blanks.meter.ifaces() == usize::from(ifaces)
            && self.names.count() == ifaces
            && self.rx_capacity >= 1
            && self.rx_capacity <= MAX_RX_CAPACITY
    }
}

/// Returns whether a hub can be made from these benches.
pub(crate) fn make_hub<L: Leaves, F: FaultSource + Drop, G: Gate + Drop>(
    benches: &[Bench<F, G>],
) -> bool
    ensures { IsTrue result ↔ MakeHubWithin L.limits benches.now }
{
    benches.len() >= 1
        && benches.len() <= 16
        && are_proper::<L, F, G>(benches)
        && have_distinct_names(benches)
}

/// Returns whether a bus can be made from each of these benches.
fn are_proper<L: Leaves, F: FaultSource + Drop, G: Gate + Drop>(benches: &[Bench<F, G>]) -> bool
    ensures { IsTrue result ↔ All (λ b. IsWithin L.limits b) benches.now }
{
    benches.iter().all(|bench| bench.is_proper::<L>())
}

/// Returns whether no interface name occurs in two of these benches.
fn have_distinct_names<F: FaultSource + Drop, G: Gate + Drop>(benches: &[Bench<F, G>]) -> bool
    ensures { IsTrue result ↔ AllApart (bench_names benches.now) }
{
    match benches {
        [] => true,
        [first, rest @ ..] => is_apart(&first.names, rest) && have_distinct_names(rest),
    }
}

/// Returns whether none of these names occurs in any of the benches.
fn is_apart<F: FaultSource + Drop, G: Gate + Drop>(names: &Names, benches: &[Bench<F, G>]) -> bool
    ensures { IsTrue result ↔ ApartFrom names.now (bench_names benches.now) }
{
    match benches {
        [] => true,
        [first, rest @ ..] => are_apart(names, &first.names) && is_apart(names, rest),
    }
}

/// Returns whether no name occurs in both lists.
fn are_apart(names: &Names, others: &Names) -> bool
    ensures { IsTrue result ↔ ShareNoName names.now others.now }
{
    for number in 0..names.count() {
        if !is_free(names, number, others) {
            return false;
        }
    }
    true
}

/// Returns whether no interface of the other bus has the name of this interface.
#[tactic(auto, using(crate::proofs::Places::index_of_get))]
fn is_free(names: &Names, number: u8, others: &Names) -> bool
    requires { number < length names.now }
    ensures { IsTrue result ↔ (¬ Contains others.now (slice_index_or names.now number [])) }
{
    // This call shows the prover that there are at most 16 names.
    let _ = names.count();
    let Some(iface) = Iface::new(number) else {
        unreachable!()
    };
    match names.name(iface) {
        Some(name) => others.find(name).is_none(),
        None => unreachable!(),
    }
}
