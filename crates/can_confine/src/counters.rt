ghost use Rattle.std.specs.Prelude.{◌≡◌, ◌<◌, ◌≤◌, false, SomeIff, if◌then◌else◌};
ghost use Rattle.can_confine.specs.Confinement.{stepped, at_start, state_of, is_passive};
ghost use Rattle.can_confine.specs.Confinement.Step.{TransmitError, ReceiveError, GoodTransmission, GoodReception, TakenDown};

use crate::state::State;
use std::marker::Model;

/// The maximum transmit count. A count of 255 is not yet bus off, and one more transmit error makes it 263.
pub const MAX_TEC: u16 = 263;

/// The maximum receive count.
pub const MAX_REC: u16 = 255;

/// The lowest transmit count of an interface that is bus off.
const BUS_OFF: u16 = 256;

/// The lowest count of an interface that is error passive.
const ERROR_PASSIVE: u16 = 128;

/// The warning limit: the lowest count of an interface in the warning state.
const WARNING_LIMIT: u16 = 96;

/// The error counters of an interface: a transmit count of at most 263, a receive count of at most 255, and whether the interface
/// was taken down.
#[derive(Debug, Clone, Copy, PartialEq, Eq)]
pub struct Counters {
    tec: u16,
    rec: u16,
    is_down: bool,
}

impl Model for Counters {
    ghost use Rattle.std.specs.Prelude.{◌≤◌};
    ghost use Rattle.can_confine.specs.Confinement.{ErrorCounts};

    ghost Value = { ErrorCounts };

    ghost view = { λ c. record { tec = c.tec; rec = c.rec; down = c.is_down } };

    ghost invariant = { λ c. (c.tec ≤ 263) × (c.rec ≤ 255) };

    ghost inverse = { λ v. record { tec = v.tec; rec = v.rec; is_down = v.down } };
}

impl Counters {
    /// Creates the counters of an interface that is not down. Returns `None` if the transmit count is above 263 or the receive
    /// count is above 255.
    pub fn new(tec: u16, rec: u16) -> Option<Counters>
        ensures { SomeIff result ((tec ≤ 263) × (rec ≤ 255))
            (record { tec = tec; rec = rec; down = false }) }
    {
        if tec > MAX_TEC || rec > MAX_REC {
            return None;
        }
        Some(Counters {
            tec,
            rec,
            is_down: false,
        })
    }

    /// Returns counters with both counts 0, as at the start.
    pub fn zero() -> Counters
        ensures { result ≡ at_start }
    {
        Counters {
            tec: 0,
            rec: 0,
            is_down: false,
        }
    }

    /// The transmit error count.
    pub fn tec(self) -> u16
        ensures count { result ≡ self.tec }
        ensures at_most { result ≤ 263 }
    {
        self.tec
    }

    /// The receive error count.
    pub fn rec(self) -> u16
        ensures count { result ≡ self.rec }
        ensures at_most { result ≤ 255 }
    {
        self.rec
    }

    /// Whether the interface was taken down.
    pub fn is_down(self) -> bool
        ensures { result ≡ self.down }
    {
        self.is_down
    }

    /// Returns the fault confinement state for these counts, or `Down` if the interface was taken down.
    pub fn state(self) -> State
        ensures { result ≡ state_of self }
    {
        if self.is_down {
            State::Down
        } else if self.tec >= BUS_OFF {
            State::Off
        } else if self.tec >= ERROR_PASSIVE || self.rec >= ERROR_PASSIVE {
            State::Passive
        } else if self.tec >= WARNING_LIMIT || self.rec >= WARNING_LIMIT {
            State::Warning
        } else {
            State::Active
        }
    }

    /// Returns the counters after a transmit error, which adds 8 to the transmit count.
    pub fn tx_error(self) -> Counters
        requires { self.tec < 256 }
        ensures { result ≡ stepped self TransmitError }
    {
        Counters {
            tec: self.tec + 8,
            ..self
        }
    }

    /// Returns the counters after a missing acknowledgement. It counts as a transmit error, unless the interface is error passive.
    pub fn ack_error(self) -> Counters
        requires { self.tec < 256 }
        ensures { result
            ≡ (if is_passive (state_of self) then self else stepped self TransmitError) }
    {
        if self.state().is_passive() {
            self
        } else {
            self.tx_error()
        }
    }

    /// Returns the counters after a receive error, which adds 1 to the receive count, up to 255.
    pub fn rx_error(self) -> Counters
        ensures { result ≡ stepped self ReceiveError }
    {
        Counters {
            rec: (self.rec + 1).min(MAX_REC),
            ..self
        }
    }

    /// Returns the counters after a good transmission, which subtracts 1 from the transmit count.
    pub fn tx_good(self) -> Counters
        ensures { result ≡ stepped self GoodTransmission }
    {
        Counters {
            tec: self.tec.saturating_sub(1),
            ..self
        }
    }

    /// Returns the counters after a good reception. A receive count of up to 127 is decreased by 1, and a higher count becomes 127.
    pub fn rx_good(self) -> Counters
        ensures { result ≡ stepped self GoodReception }
    {
        let rec = if self.rec >= ERROR_PASSIVE {
            ERROR_PASSIVE - 1
        } else {
            self.rec.saturating_sub(1)
        };
        Counters { rec, ..self }
    }

    /// Returns the counters after the interface is taken down. Both counts stay the same.
    pub fn take_down(self) -> Counters
        ensures { result ≡ stepped self TakenDown }
    {
        Counters {
            is_down: true,
            ..self
        }
    }

    /// Returns the counters after a restart: both counts are 0 and the interface is not down.
    pub fn restart(self) -> Counters
        ensures { result ≡ at_start }
    {
        Counters::zero()
    }
}
