ghost use Rattle.std.specs.Prelude.{◌≡◌, ◌↔◌, IsTrue};
ghost use Rattle.can_station.specs.Published.{AllSeen, GaugesOf};

use can_meter::{Gauge, Keeper, MeterName};

/// Returns whether all gauges belong to the station with this number.
pub(crate) fn are_gauges_of<N: MeterName>(gauges: &[Gauge<N>], number: u8) -> bool
    ensures { IsTrue result ↔ GaugesOf number gauges.now }
{
    gauges.iter().all(|gauge| gauge.number() == number)
}

/// Takes all gauges back. Every counter value that a gauge read was published by the keeper.
pub(crate) fn take_back_gauges<N: MeterName>(keeper: &mut Keeper<N>, gauges: Vec<Gauge<N>>)
    requires { GaugesOf keeper.old.number gauges.items }
    ensures same { keeper.new ≡ keeper.old }
    ensures seen { AllSeen gauges.items keeper.old }
{
    for gauge in gauges {
        keeper.absorb(gauge);
    }
}
