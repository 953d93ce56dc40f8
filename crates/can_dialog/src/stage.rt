ghost use Rattle.std.specs.Prelude.{◌≡◌};
ghost use Rattle.can_dialog.specs.Turns.{mode_of};

use can_event::SocketId;
use can_frame::Iface;
use can_proto::Mode;

/// The socket of a session in raw mode, its interface, and the client's choices. The client can choose to get the data of error
/// message frames, the number of each frame sent, and the origin of each frame received.
#[derive(Debug, Clone, Copy, PartialEq, Eq)]
pub struct RawSocket {
    pub iface: Iface,
    pub socket: SocketId,
    pub errdata: bool,
    pub acks: bool,
    pub origins: bool,
}

/// The stage of a session, and the values that belong to it.
#[derive(Debug, Clone, Copy, PartialEq, Eq)]
pub enum Stage {
    /// The client has opened no interface.
    NoBus,
    /// The client has opened this interface but no socket on it.
    Opened(Iface),
    /// The client has an open socket.
    Raw(RawSocket),
    /// The session has ended.
    Ended,
}

impl Stage {
    /// Returns the mode of this stage. The mode determines which commands are allowed.
    pub fn mode(self) -> Mode
        ensures { result ≡ mode_of self }
    {
        match self {
            Stage::NoBus => Mode::NoBus,
            Stage::Opened(_) => Mode::Opened,
            Stage::Raw(_) => Mode::Raw,
            Stage::Ended => Mode::Ended,
        }
    }
}

/// The state of a session between its turns: its stage, and the capacity of the socket that it will open.
#[derive(Debug, Clone, Copy, PartialEq, Eq)]
pub struct Dialog {
    pub capacity: u32,
    pub stage: Stage,
}
