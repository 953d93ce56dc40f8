//! Builds a bus from its description on the command line: its faults and its configuration.
ghost use Rattle.std.specs.Prelude.{◌≡◌, ◌≤◌, length, IfErr, IfOk, Ok};
ghost use Rattle.can_frame.specs.Names.{names_in};
ghost use Rattle.can_rules.specs.Plans.{ReadsPlan};
ghost use Rattle.canbusd_io.specs.Buses.{HadFaults, IsPlan, config_of};
ghost use Rattle.canbusd_io.specs.Files.{IsOfFaults, IsOfPlan};
ghost use Rattle.canbusd_io.specs.Buses.{first_ifaces as first_ifaces_of};

use crate::names::read_names;
use crate::report::Report;
use crate::scripts::{read_run_faults, read_script};
use can_bus::BusConfig;
use can_event::{MAX_AUTO_RESTART, MAX_RX_CAPACITY, MAX_TX_CAPACITY};
use can_frame::{IfaceSet, Names};
use can_rules::{Plan, RunFaults};
use canbusd_options::{BusSettings, BusWord, FaultsWord};
use std::alloc::{AllocError, Global};
use std::rt::Files;

/// Reads the faults of a bus with these names, and returns them with the text of their script. If the BUS argument names no script,
/// there are no faults and the returned text is empty.
pub fn read_plan<'a, H: Files>(
    rt: &H,
    alloc: Global,
    bus: BusWord<'a>,
    names: &Names,
) -> Result<(Plan, String), Report<'a>>
    ensures plan { IfOk result (λ r. IsPlan bus.entry.script names.now r.0) }
    ensures text { IfOk result (λ r. ReadsPlan names.now r.1.bytes.items (Ok r.0)) }
    ensures fault { IfErr result (λ failure. IsOfPlan bus.entry.script names.now failure.error) }
{
    match bus.script {
        Some(path) => read_script(rt, alloc, path, bus.names, names),
        None => Ok((Plan::new(alloc), String::new(alloc))),
    }
}

/// The faults that a bus had in a run.
#[derive(Drop)]
pub struct KnownFaults {
    /// The number of interfaces of the bus. Every interface has a name.
    pub ifaces: u8,
    /// The faults.
    pub faults: RunFaults,
}

/// Reads the faults that a bus had in a run, from a `NAMES@FILE` argument. The names are checked before the file is read.
pub fn read_faults<'a, H: Files>(
    rt: &H,
    alloc: Global,
    word: FaultsWord<'a>,
) -> Result<KnownFaults, Report<'a>>
    ensures faults { IfOk result (λ known. HadFaults word.entry known.faults) }
    ensures ifaces { IfOk result (λ known.
        known.ifaces ≡ length (names_in word.entry.names.now)) }
    ensures fault { IfErr result (λ failure. IsOfFaults word.entry failure.error) }
{
    let names = read_names(alloc, word.names)?;
    let ifaces = names.count();
    let faults = read_run_faults(rt, alloc, word.path, word.names, names)?;
    Ok(KnownFaults { ifaces, faults })
}

/// Returns the configuration of a bus with these names and settings.
pub fn bus_config(settings: BusSettings, names: &Names) -> BusConfig
    ensures { result ≡ config_of settings (length names.now) }
{
    BusConfig {
        ifaces: names.count(),
        ack: settings.ack,
        reporting: if settings.is_reporting {
            first_ifaces(names.count())
        } else {
            IfaceSet::empty()
        },
        tx_capacity: settings.tx_capacity,
        limit: settings.limit,
        auto_restart: settings.auto_restart,
    }
}

// Returns the set of the first `count` interfaces.
fn first_ifaces(count: u8) -> IfaceSet
    requires { count ≤ 16 }
    ensures { result ≡ first_ifaces_of count }
{
    IfaceSet(((1_u32 << count) - 1) as u16)
}

/// Returns a note on the first option whose value is out of range, or an empty string if there is none. `most` is the largest value
/// of `--limit`.
pub fn limits_note(alloc: Global, settings: &BusSettings, most: u32) -> Result<String, AllocError> {
    let limits = [
        ("txqueue", settings.tx_capacity, 1, MAX_TX_CAPACITY),
        ("rxqueue", settings.rx_capacity, 1, MAX_RX_CAPACITY),
        ("limit", settings.limit, 1, most),
        ("auto-restart", settings.auto_restart, 0, MAX_AUTO_RESTART),
    ];
    for (option, number, least, most) in limits {
        if number < least || number > most {
            return format!(in alloc; "  --{option} {number}: from {least} to {most}\n");
        }
    }
    Ok(String::new(alloc))
}
