use crate::socket_id::SocketId;
use can_frame::Frame;

/// A frame in a transmit queue: the frame, the socket that sent it, and whether it is looped back.
#[derive(Debug, Clone, Copy, PartialEq, Eq)]
pub struct Pending {
    pub frame: Frame,
    pub socket: SocketId,
    pub loopback: bool,
}
