//! Creates a bus from the arguments that C passes.
ghost use Rattle.std.specs.Prelude.{◌≡◌, ◌≢◌, IfOk, IfErr, OnOk};
ghost use Rattle.can_frame.specs.Names.{names_in, AreNames};
ghost use Rattle.canbusd_c.specs.Making.{HasRates, IsConfigIn, IsMadeOf, IsNoBus, IsNoConfig, IsNoNames, IsNoTiming, timing_of_numbers};

use crate::codes::{BAD_BIT_RATES, BAD_CONFIG, BAD_NAMES, NO_MEMORY};
use crate::local_bus::LocalBus;
use crate::shapes::CConfig;
use can_attempt::AckMode;
use can_bus::{BusConfig, BusFault};
use can_frame::{IfaceSet, Names, NamesError};
use can_wire::Timing;
use std::alloc::Global;
use std::str;

/// Creates a bus, or returns the code of the error.
pub fn make(alloc: Global, names: &[u8], config: &CConfig) -> Result<Box<LocalBus>, u32>
    ensures made { IfOk result (λ bus. IsMadeOf names.now config.now bus.value) }
    ensures refused { IfErr result (λ code. code ≢ 0) }
    ensures why { IfErr result (λ code. IsNoBus names.now config.now code) }
{
    let names = names_of(alloc, names)?;
    let timing = timing_in(config)?;
    let config = config_in(names.count(), config)?;
    match LocalBus::new(alloc, names, config, timing) {
        Ok(bus) => match Box::new(alloc, bus) {
            Ok(bus) => Ok(bus),
            Err(_) => Err(NO_MEMORY),
        },
        Err(BusFault::BadConfig) => Err(BAD_CONFIG),
        Err(BusFault::NoMemory) => Err(NO_MEMORY),
    }
}

/// Returns the names in a string, where commas separate the names.
pub fn names_of(alloc: Global, names: &[u8]) -> Result<Names, u32>
    ensures read { IfOk result (λ found. found ≡ names_in names.now) }
    ensures refused { IfErr result (λ code. code ≢ 0) }
    ensures good { OnOk result (AreNames (names_in names.now)) }
    ensures why { IfErr result (λ code. IsNoNames names.now code) }
{
    let Ok(names) = str::from_utf8(names) else {
        return Err(BAD_NAMES);
    };
    match Names::read(alloc, names) {
        Ok(names) => Ok(names),
        Err(NamesError::BadNames) => Err(BAD_NAMES),
        Err(NamesError::NoMemory) => Err(NO_MEMORY),
    }
}

/// Returns the bit rates in a configuration, if it has any.
pub fn timing_in(config: &CConfig) -> Result<Option<Timing>, u32>
    ensures read { IfOk result (λ timing.
        timing ≡ timing_of_numbers config.now.bitrate config.now.data_bitrate) }
    ensures refused { IfErr result (λ code. code ≢ 0) }
    ensures good { OnOk result (HasRates config.now) }
    ensures why { IfErr result (λ code. IsNoTiming config.now code) }
{
    if config.bitrate == 0 {
        if config.data_bitrate != 0 {
            return Err(BAD_BIT_RATES);
        }
        return Ok(None);
    }
    let fast = if config.data_bitrate == 0 {
        None
    } else {
        Some(config.data_bitrate)
    };
    match Timing::new(config.bitrate, fast) {
        Ok(timing) => Ok(Some(timing)),
        Err(_) => Err(BAD_BIT_RATES),
    }
}

/// Returns the configuration of a bus with `ifaces` interfaces.
pub fn config_in(ifaces: u8, config: &CConfig) -> Result<BusConfig, u32>
    ensures read { IfOk result (λ made. IsConfigIn ifaces config.now made) }
    ensures refused { IfErr result (λ code. code ≢ 0) }
    ensures why { IfErr result (λ code. IsNoConfig config.now code) }
{
    let ack = match config.ack {
        0 => AckMode::Always,
        1 => AckMode::Peers,
        _ => return Err(BAD_CONFIG),
    };
    if config.reporting > 0xFFFF {
        return Err(BAD_CONFIG);
    }
    Ok(BusConfig {
        ifaces,
        ack,
        reporting: IfaceSet(config.reporting as u16),
        tx_capacity: config.tx_capacity,
        limit: config.limit,
        auto_restart: config.auto_restart,
    })
}
