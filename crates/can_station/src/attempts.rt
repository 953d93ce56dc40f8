ghost use Rattle.std.specs.Prelude.{◌≡◌, IfOk};
ghost use Rattle.can_station.specs.Passes.{without_verdict};

use crate::refusals::StationRefusal;
use can_bus::Attempt;
use can_fault::Verdict;

/// Adds this verdict to the outcome of an attempt.
pub(crate) fn with_verdict(
    verdict: Verdict,
    outcome: Result<Attempt, StationRefusal>,
) -> Result<(Verdict, Attempt), StationRefusal>
    ensures same { without_verdict result ≡ outcome }
    ensures verdict { IfOk result (λ r. r.0 ≡ verdict) }
{
    match outcome {
        Ok(attempt) => Ok((verdict, attempt)),
        Err(why) => Err(why),
    }
}
