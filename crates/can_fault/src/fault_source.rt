use crate::verdict::Verdict;

/// A source of the verdicts on a bus's attempts: a finite map from attempt numbers to verdicts. Attempts that try a frame are
/// numbered from 0. An idle attempt has no number.
pub trait FaultSource {
    ghost use Rattle.std.specs.Prelude.{◌≡◌};
    ghost use Rattle.can_fault.specs.Sources.{VerdictMap, verdict_in};

    /// The map of the source.
    ghost verdicts: { Self → VerdictMap };

    /// Returns the verdict on the attempt with this number: the verdict in the source's map, or `Good` if the map has none. The
    /// call does not change the map.
    fn verdict(&mut self, attempt: u64) -> Verdict
        ensures answer { result ≡ verdict_in (verdicts self.old) attempt }
        ensures keeps { verdicts self.new ≡ verdicts self.old };
}

/// A source without faults: the verdict on every attempt is `Good`.
#[derive(Debug, Clone, Copy, PartialEq, Eq)]
pub struct Perfect;

impl FaultSource for Perfect {
    ghost use Rattle.can_fault.specs.Sources.{no_verdicts};

    ghost verdicts = { λ _. no_verdicts };

    fn verdict(&mut self, _attempt: u64) -> Verdict {
        Verdict::Good
    }
}
