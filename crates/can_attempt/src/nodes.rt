use can_confine::Counters;
use can_frame::Iface;

/// The interfaces of a bus at the start of an attempt: their number, 1 to 16, and their error counters by interface number.
/// Counters from place `count` on belong to no interface.
#[derive(Debug, Clone, Copy, PartialEq, Eq)]
pub struct Nodes {
    /// The number of interfaces of the bus.
    pub count: u8,
    /// The error counters of the interfaces.
    pub counters: [Counters; 16],
}

impl Nodes {
    ghost use Rattle.std.specs.Prelude.{◌≡◌, All, IsTrue};
    ghost use Rattle.can_confine.specs.Confinement.{at_start, is_silent, state_of};
    ghost use Rattle.can_attempt.specs.Attempts.{counts_at};

    /// The error counters of an interface.
    pub fn counters_of(&self, iface: Iface) -> Counters
        ensures { result ≡ counts_at self.now iface }
    {
        self.counters[iface.number() as usize]
    }

    /// Whether an interface is bus off or down, and so takes no part in attempts.
    pub fn is_silent(&self, iface: Iface) -> bool
        ensures { result ≡ is_silent (state_of (counts_at self.now iface)) }
    {
        self.counters_of(iface).state().is_silent()
    }

    /// Whether all counts are 0 and no interface is down, as on a bus without faults. The loop has no branch for each interface.
    pub fn are_at_start(&self) -> bool
        ensures { IsTrue result → All (λ c. c ≡ at_start) self.now.counters }
    {
        let mut bits = 0;
        for one in &self.counters {
            bits |= one.tec() | one.rec() | u16::from(one.is_down());
        }
        bits == 0
    }
}
