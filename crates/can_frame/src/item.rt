use crate::error_frame::ErrorFrame;
use crate::frame::Frame;

/// An item that a socket receives: a frame from the bus, or an error message frame from its interface.
#[derive(Debug, Clone, Copy, PartialEq, Eq)]
pub enum Item {
    /// A data frame, a remote frame or an FD frame.
    Data(Frame),
    /// An error message frame.
    Error(ErrorFrame),
}
