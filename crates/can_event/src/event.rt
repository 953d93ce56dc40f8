ghost use Rattle.std.specs.Prelude.{◌≡◌, IfOk};

use crate::opt::Opt;
use crate::socket_id::SocketId;
use can_fault::Verdict;
use can_filter::FilterSet;
use can_frame::{Frame, Iface, Moment};
use std::alloc::{AllocError, Global};

/// One call on a bus.
#[derive(Debug, PartialEq, Eq, Drop)]
pub enum Event {
    /// Open a socket on an interface. Its receive queue has this capacity in items, 1 to 65,536.
    Open(Iface, u32),
    /// Close a socket.
    Close(SocketId),
    /// Set the filters of a socket.
    SetFilters(SocketId, FilterSet),
    /// Set an option of a socket.
    SetOption(SocketId, Opt),
    /// Send a frame on a socket.
    Send(SocketId, Frame),
    /// Take the oldest item from the receive queue of a socket.
    Receive(SocketId),
    /// Try the frame that wins arbitration, at this moment and with these faults.
    Attempt(Moment, Verdict),
    /// Restart an interface that is bus off or down, at this moment.
    Restart(Iface, Moment),
    /// Take an interface down, at this moment (`ip link set down`).
    Down(Iface, Moment),
}

impl Event {
    /// Returns a copy of the event. Only the copy of a set of filters takes memory, and time in proportion to its length.
    pub fn try_copy(&self, alloc: Global) -> Result<Event, AllocError>
        ensures { IfOk result (λ event. event ≡ self.now) }
    {
        Ok(match self {
            Event::Open(iface, capacity) => Event::Open(*iface, *capacity),
            Event::Close(id) => Event::Close(*id),
            Event::SetFilters(id, filters) => Event::SetFilters(*id, filters.try_copy(alloc)?),
            Event::SetOption(id, option) => Event::SetOption(*id, *option),
            Event::Send(id, frame) => Event::Send(*id, *frame),
            Event::Receive(id) => Event::Receive(*id),
            Event::Attempt(moment, verdict) => Event::Attempt(*moment, *verdict),
            Event::Restart(iface, moment) => Event::Restart(*iface, *moment),
            Event::Down(iface, moment) => Event::Down(*iface, *moment),
        })
    }
}
