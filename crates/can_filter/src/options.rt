/// The options of a socket (linux/can/raw.h).
#[derive(Debug, Clone, Copy, PartialEq, Eq)]
pub struct Options {
    /// Frames that the socket sends are also delivered to the other sockets of its own interface.
    pub loopback: bool,
    /// The socket also receives its own frames.
    pub recv_own: bool,
    /// A frame has to match every filter, instead of at least one.
    pub join: bool,
    /// The mask of the error classes whose error message frames the socket receives. Bits 29 to 31 are ignored.
    pub err_mask: u32,
    /// The socket may send and receive FD frames.
    pub fd: bool,
}

impl Options {
    ghost use Rattle.std.specs.Prelude.{◌≡◌};
    ghost use Rattle.can_filter.specs.Passing.{default_options};

    /// The options of a newly opened socket: loopback is on, and all other options are off.
    pub fn at_open() -> Options
        ensures { result ≡ default_options }
    {
        Options {
            loopback: true,
            recv_own: false,
            join: false,
            err_mask: 0,
            fd: false,
        }
    }
}

impl Default for Options {
    ghost use Rattle.std.specs.Prelude.{◌≡◌};
    ghost use Rattle.can_filter.specs.Passing.{default_options};

    ghost is_default = { λ options. options ≡ default_options };

    fn default() -> Self {
        Options::at_open()
    }
}
