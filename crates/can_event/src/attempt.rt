ghost use Rattle.std.specs.Prelude.{◌≡◌};
ghost use Rattle.can_event.specs.Events.{tried_item};

use crate::received::Received;
use can_attempt::Class;
use can_frame::{Frame, Iface, IfaceSet, Item, Moment};

/// An attempt that tried a frame: its moment, the sending interface (the winner), the frame and its number at that interface, and
/// the result. `accepted` are the interfaces that accepted the frame, `off` those that went bus off, and `restarted` those that
/// were restarted.
#[derive(Debug, Clone, Copy, PartialEq, Eq)]
pub struct Tried {
    pub moment: Moment,
    pub winner: Iface,
    pub number: u64,
    pub frame: Frame,
    pub class: Class,
    pub accepted: IfaceSet,
    pub off: IfaceSet,
    pub restarted: IfaceSet,
}

impl Tried {
    /// Returns the frame in the form in which a socket receives it.
    pub fn received(&self) -> Received
        ensures { result ≡ tried_item self.now }
    {
        Received {
            item: Item::Data(self.frame),
            from: self.winner,
            number: self.number,
            moment: self.moment,
        }
    }
}

/// The result of an attempt.
#[derive(Debug, Clone, Copy, PartialEq, Eq)]
pub enum Attempt {
    /// No live interface had a frame to send. The attempt restarted these interfaces.
    Idle { restarted: IfaceSet },
    /// A frame was tried.
    Tried(Tried),
}
