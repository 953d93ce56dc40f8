use can_bus::Refusal;
use thiserror::Error;

/// Why a station refused a call.
#[derive(Debug, Clone, Copy, PartialEq, Eq, Error)]
pub enum StationRefusal {
    /// The bus refused the call, or an allocation failed.
    #[error("{0}")]
    Bus(Refusal),
    /// The pass belongs to another station.
    #[error("wrong station")]
    WrongStation,
}

/// All 4,096 passes of the station are in use.
#[derive(Debug, Clone, Copy, PartialEq, Eq, Error)]
#[error("too many passes")]
pub struct TooManyPasses;

/// A pass or a gauge belongs to another station.
#[derive(Debug, Clone, Copy, PartialEq, Eq, Error)]
#[error("wrong station")]
pub struct WrongStation;
