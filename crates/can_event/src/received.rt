ghost use Rattle.std.specs.Prelude.{◌≡◌};
ghost use Rattle.can_event.specs.Events.{no_item};

use can_frame::{CanId, Frame, Iface, Item, Moment};

/// An item that a socket received: the item, the interface that it comes from, the frame's number at that interface, and the moment
/// at which the socket got it. An error message frame comes from the socket's own interface and has the number 0.
#[derive(Debug, Clone, Copy, PartialEq, Eq)]
pub struct Received {
    pub item: Item,
    pub from: Iface,
    pub number: u64,
    pub moment: Moment,
}

impl Received {
    /// Returns an empty value for a room into which no item was received yet: an empty frame from interface 0 at moment 0.
    pub fn nothing() -> Received
        ensures { result ≡ no_item }
    {
        let id = CanId::standard(0).unwrap();
        Received {
            item: Item::Data(Frame::data(id, &[]).unwrap()),
            from: Iface::new(0).unwrap(),
            number: 0,
            moment: Moment::new(0).unwrap(),
        }
    }
}
