//! The number of entries of each bus when a server ends.
ghost use Rattle.std.specs.Prelude.{◌≡◌, OnOk};
ghost use Rattle.canbusd_io.specs.Files.{Took};
ghost use Rattle.canbusd_serve.specs.Served.{bus_end_line, end_lines, journals};

use can_bus::{LongEnd, Record};
use can_server::Leaves;
use can_station::Settled;
use canbusd_io::{OUTPUT, Report, write_failure};
use canbusd_options::BusWord;
use std::alloc::Global;
use std::io::Write;

/// The final state of a bus, which includes the number of its entries.
pub trait Ended: Leaves {
    ghost use Rattle.std.specs.Prelude.{◌≡◌, length};

    /// Returns the number of entries that the bus had.
    fn count(&self) -> u64
        ensures { result ≡ length (Self.journal self.now).history };
}

impl Ended for Record {
    fn count(&self) -> u64 {
        self.len() as u64
    }
}

impl Ended for LongEnd {
    fn count(&self) -> u64 {
        self.len()
    }
}

/// Writes the number of entries of each bus to the output.
pub fn put_ends<'a, L: Ended, W: Write>(
    alloc: Global,
    buses: &[BusWord<'_>],
    settled: &[Settled<L>],
    output: &mut W,
) -> Result<(), Report<'a>>
    ensures { OnOk result (Took W.contents output.old output.new
        (end_lines buses.now (journals L.journal settled.now))) }
{
    put_each_end(alloc, buses, settled, output)?;
    output
        .flush()
        .map_err(|error| write_failure(alloc, OUTPUT, &error))
}

fn put_each_end<'a, L: Ended, W: Write>(
    alloc: Global,
    buses: &[BusWord<'_>],
    settled: &[Settled<L>],
    output: &mut W,
) -> Result<(), Report<'a>>
    ensures { OnOk result (Took W.contents output.old output.new
        (end_lines buses.now (journals L.journal settled.now))) }
{
    let Some((bus, buses)) = buses.split_first() else {
        return Ok(());
    };
    let Some((first, settled)) = settled.split_first() else {
        return Ok(());
    };
    put_end(alloc, bus, &first.history, output)?;
    put_each_end(alloc, buses, settled, output)
}

fn put_end<'a, L: Ended, W: Write>(
    alloc: Global,
    bus: &BusWord<'_>,
    end: &L,
    output: &mut W,
) -> Result<(), Report<'a>>
    ensures { OnOk result (Took W.contents output.old output.new
        (bus_end_line bus.now (L.journal end.now))) }
{
    let name = bus.first_name();
    let count = end.count();
    writeln!(output, "bus {name} entries {count}").map_err(|error| write_failure(
        alloc, OUTPUT, &error,
    ))
}
