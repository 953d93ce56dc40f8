ghost use Rattle.std.specs.Prelude.{◌≡◌};
ghost use Rattle.can_confine.specs.Confinement.{is_down, is_off, is_passive, is_silent};

/// The fault confinement state of an interface (Bosch CAN Specification 2.0, with the warning limit of
/// linux/can/error.h).
#[derive(Debug, Clone, Copy, PartialEq, Eq)]
pub enum State {
    /// The interface is error active, and both counts are below 96.
    Active,
    /// The interface is error active, and at least one count has reached the warning limit of 96.
    Warning,
    /// The interface is error passive: at least one count is 128 or more. Its error flag disturbs nobody.
    Passive,
    /// The interface is bus off: the transmit count is at least 256. It takes no part until it is restarted.
    Off,
    /// The interface was taken down, as by `ip link set down`. It takes no part until it is restarted.
    Down,
}

impl State {
    /// Whether the interface is bus off.
    pub fn is_off(self) -> bool
        ensures { result ≡ is_off self }
    {
        matches!(self, State::Off)
    }

    /// Whether the interface was taken down.
    pub fn is_down(self) -> bool
        ensures { result ≡ is_down self }
    {
        matches!(self, State::Down)
    }

    /// Whether the interface is bus off or down. It then neither sends nor receives anything.
    pub fn is_silent(self) -> bool
        ensures { result ≡ is_silent self }
    {
        matches!(self, State::Off | State::Down)
    }

    /// Whether the interface is error passive.
    pub fn is_passive(self) -> bool
        ensures { result ≡ is_passive self }
    {
        matches!(self, State::Passive)
    }
}
