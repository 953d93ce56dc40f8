use can_meter::MeterName;
use can_roll::RollName;

/// Identifies one bus in contracts: its roll, its scroll and its meter. The trait has no methods.
pub trait BusName: RollName + MeterName {}

impl<N: RollName + MeterName> BusName for N {}
