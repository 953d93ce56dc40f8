use can_rules::RunFaults;
use can_wire::Timing;

/// The parts that are wanted in the lines of entries, in addition to the effects of the entries.
#[derive(Drop)]
pub struct Wanted {
    /// The timing of the bus. If it is given, the line of each tried frame also contains its times and its bits on the wire.
    pub timing: Option<Timing>,
    /// The faults of the run. If they are given, each rule that the bus accepts has a line, and the line of an attempt contains the
    /// number of the rule that gave its verdict.
    pub faults: Option<RunFaults>,
}

impl Wanted {
    ghost use Rattle.std.specs.Prelude.{◌≡◌, IsTrue};
    ghost use Rattle.can_replay.specs.EventsText.{nothing_wanted};

    /// Returns a value that requests no additional parts.
    pub fn nothing() -> Wanted
        ensures { result ≡ nothing_wanted }
    {
        Wanted {
            timing: None,
            faults: None,
        }
    }

    /// Returns whether no additional parts are wanted.
    pub fn is_nothing(&self) -> bool
        ensures { IsTrue result → self.now ≡ nothing_wanted }
    {
        self.timing.is_none() && self.faults.is_none()
    }
}
