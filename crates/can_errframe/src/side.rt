ghost use Rattle.std.specs.Prelude.{◌≡◌};
ghost use Rattle.can_errframe.specs.ErrorMessages.{side_of, level, tx_code, rx_code, controller_code};

use crate::codes::*;

/// The state that one of the two error counts implies, without the other count.
#[derive(Debug, Clone, Copy, PartialEq, Eq)]
pub(crate) enum Side {
    Active,
    Warning,
    Passive,
}

impl Side {
    /// Returns the side for an error count.
    pub(crate) fn of_count(count: u16) -> Side
        ensures { result ≡ side_of count }
    {
        if count >= 128 {
            Side::Passive
        } else if count >= 96 {
            Side::Warning
        } else {
            Side::Active
        }
    }

    /// Returns the severity of a side: 0 for `Active`, 1 for `Warning` and 2 for `Passive`.
    fn level(self) -> u8
        ensures { result ≡ level self }
    {
        match self {
            Side::Active => 0,
            Side::Warning => 1,
            Side::Passive => 2,
        }
    }

    /// Returns the controller code if this is the side of the transmit error count.
    fn tx_code(self) -> u8
        ensures { result ≡ tx_code self }
    {
        match self {
            Side::Active => CAN_ERR_CRTL_ACTIVE,
            Side::Warning => CAN_ERR_CRTL_TX_WARNING,
            Side::Passive => CAN_ERR_CRTL_TX_PASSIVE,
        }
    }

    /// Returns the controller code if this is the side of the receive error count.
    fn rx_code(self) -> u8
        ensures { result ≡ rx_code self }
    {
        match self {
            Side::Active => CAN_ERR_CRTL_ACTIVE,
            Side::Warning => CAN_ERR_CRTL_RX_WARNING,
            Side::Passive => CAN_ERR_CRTL_RX_PASSIVE,
        }
    }
}

/// Returns the controller code: the code of the more severe side, or both codes if the sides are equal.
pub(crate) fn controller_code(tx: Side, rx: Side) -> u8
    ensures { result ≡ controller_code tx rx }
{
    let tx_code = if tx.level() >= rx.level() {
        tx.tx_code()
    } else {
        0
    };
    let rx_code = if rx.level() >= tx.level() {
        rx.rx_code()
    } else {
        0
    };
    tx_code | rx_code
}
