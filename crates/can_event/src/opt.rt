ghost use Rattle.std.specs.Prelude.{◌≡◌};
ghost use Rattle.can_event.specs.Events.{with_option};

use can_filter::Options;

/// One option of a socket, and its new value (linux/can/raw.h).
#[derive(Debug, Clone, Copy, PartialEq, Eq)]
pub enum Opt {
    /// Whether frames sent after this call are looped back (CAN_RAW_LOOPBACK).
    Loopback(bool),
    /// Whether the socket receives the frames that it sent itself (CAN_RAW_RECV_OWN_MSGS).
    RecvOwn(bool),
    /// Whether a frame has to match every filter of the socket (CAN_RAW_JOIN_FILTERS).
    Join(bool),
    /// The error classes whose error message frames the socket receives (CAN_RAW_ERR_FILTER).
    ErrMask(u32),
    /// Whether the socket sends and receives FD frames (CAN_RAW_FD_FRAMES).
    FdFrames(bool),
}

impl Opt {
    /// Returns the options of a socket after this option was set.
    pub fn set_in(self, options: Options) -> Options
        ensures { result ≡ with_option self options }
    {
        match self {
            Opt::Loopback(loopback) => Options {
                loopback,
                ..options
            },
            Opt::RecvOwn(recv_own) => Options {
                recv_own,
                ..options
            },
            Opt::Join(join) => Options { join, ..options },
            Opt::ErrMask(err_mask) => Options {
                err_mask,
                ..options
            },
            Opt::FdFrames(fd) => Options { fd, ..options },
        }
    }
}
