use crate::event::Event;
use crate::reply::Reply;

/// An event and its reply. An entry takes 208 bytes, because an event has room for `Send` with a frame, and a reply has room for
/// `Tried`.
#[derive(Debug, PartialEq, Eq, Drop)]
pub struct Entry {
    pub event: Event,
    pub reply: Reply,
}
