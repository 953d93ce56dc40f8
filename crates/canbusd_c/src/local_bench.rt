ghost use Rattle.std.specs.Prelude.{◌≡◌, ◌↔◌, Err, IfOk, IfErr, OnOk};
ghost use Rattle.can_bus.specs.Legal.{IsLegal};
ghost use Rattle.can_session.specs.Runs.{IsBench, IsRecordOfBench, IsStartFault};
ghost use Rattle.canbusd_c.specs.Benching.{KeepsLines, kept_at_start};

use can_bus::{BusConfig, Record};
use can_fault::Perfect;
use can_frame::Names;
use can_rules::Plan;
use can_session::{Bench, BenchFault, take_lines};
use can_wire::Timing;
use std::alloc::Global;
use std::marker::Model;

/// A bench and the output of the lines of the last call.
#[derive(Drop)]
pub struct LocalBench {
    alloc: Global,
    bench: Bench,
    output: Vec<u8>,
}

impl Model for LocalBench {
    ghost use Rattle.std.specs.Coded.{codes};
    ghost use Rattle.can_fault.specs.Sources.{verdict_map_code};
    ghost use Rattle.canbusd_c.specs.Benching.{KeptBench};

    ghost Value = { KeptBench };

    ghost coded = { Prim.hlevel (codes, verdict_map_code) };

    ghost view = { λ b. record { bench = b.bench; output = b.output.items } };
}

impl LocalBench {
    /// Returns a bench before its first line.
    pub fn new(
        alloc: Global,
        names: Names,
        config: BusConfig,
        capacity: u32,
        timing: Option<Timing>,
        shows_faults: bool,
        plan: Plan,
    ) -> Result<LocalBench, BenchFault>
        ensures made { IfOk result (λ b.
            b ≡ kept_at_start shows_faults plan timing names config capacity) }
        ensures good { OnOk result (IsBench names config capacity) }
        ensures bad { (result ≡ Err BenchFault.BadConfig) ↔ (¬ IsBench names config capacity) }
        ensures faults { IfErr result IsStartFault }
    {
        let bench = Bench::new(alloc, names, config, capacity, timing, shows_faults, plan)?;
        Ok(LocalBench {
            alloc,
            bench,
            output: Vec::new(alloc),
        })
    }

    /// Carries out lines. Their output replaces the output of the previous call.
    pub fn take(&mut self, lines: &[u8]) -> Result<(), BenchFault>
        ensures { KeepsLines lines.now self.old result self.new }
    {
        self.output.clear();
        take_lines(
            self.alloc,
            &mut self.bench,
            &mut Perfect,
            lines,
            &mut self.output,
        )
    }

    /// Returns the output of the lines of the last call.
    pub fn output(&self) -> &[u8]
        ensures { result.now ≡ self.now.output }
    {
        &self.output
    }

    /// Returns the record of the bus so far.
    pub fn record(&self) -> &Record
        ensures record { IsRecordOfBench result.now self.now.bench }
        ensures legal { IsLegal result.now.config result.now.history }
    {
        self.bench.record()
    }

    /// Returns the names of the interfaces.
    pub fn names(&self) -> &Names
        ensures { result.now ≡ self.now.bench.bus.names }
    {
        self.bench.names()
    }
}
