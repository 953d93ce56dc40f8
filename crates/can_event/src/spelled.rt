ghost use Rattle.std.specs.Prelude.{IsTrue, ◌↔◌};
ghost use Rattle.can_event.specs.Spelled.{SendsFd, MayRefuse, IsNumbered, AreNumbered, FitsReply, MayRestart, IsSpelled};
ghost use Rattle.can_event.specs.declared.attempt.Attempt.TheVariants as attempt;
ghost use Rattle.can_event.specs.declared.reply.Reply.TheVariants as reply;

use crate::attempt::{Attempt, Tried};
use crate::bus_config::BusConfig;
use crate::entry::Entry;
use crate::event::Event;
use crate::received::Received;
use crate::refusal::Refusal;
use crate::reply::Reply;
use can_frame::{IfaceSet, Item};

/// Returns whether an entry has a line in the text of a record. The reply has to be of the event's own kind, or a refusal
/// that leaves an entry; `FdOff` is possible only for a send of an FD frame. A tried frame has the moment of its attempt,
/// and a received error message frame has the number 0. If the bus has no automatic restart, the reply names no restarted
/// interface.
pub fn is_spelled(config: BusConfig, entry: &Entry) -> bool
    ensures { IsTrue result ↔ IsSpelled config entry.now }
{
    fits_reply(&entry.event, &entry.reply) && may_restart(config, &entry.reply)
}

/// Returns whether attempts on this bus may restart the interfaces that the reply names as restarted.
fn may_restart(config: BusConfig, reply: &Reply) -> bool
    ensures { IsTrue result ↔ MayRestart config reply.now }
{
    let restarted = match reply {
        Reply::Attempted(Attempt::Idle { restarted }) => *restarted,
        Reply::Attempted(Attempt::Tried(tried)) => tried.restarted,
        _ => IfaceSet::empty(),
    };
    config.auto_restart != 0 || restarted.is_empty()
}

/// Returns whether an event of this kind can have this reply.
fn fits_reply(event: &Event, reply: &Reply) -> bool
    ensures { IsTrue result ↔ FitsReply event.now reply.now }
{
    match reply {
        Reply::Refused(why) => may_refuse(event, *why),
        Reply::Opened(_) => matches!(event, Event::Open(_, _)),
        Reply::Closed(_) => matches!(event, Event::Close(_)),
        Reply::Done => is_setting(event),
        Reply::Sent(_) => matches!(event, Event::Send(_, _)),
        Reply::Received(item) => matches!(event, Event::Receive(_)) && are_numbered(item),
        Reply::Attempted(Attempt::Idle { .. }) => matches!(event, Event::Attempt(_, _)),
        Reply::Attempted(Attempt::Tried(tried)) => is_attempt_of(event, tried),
    }
}

/// Returns whether `Done` is the reply to this event if it is carried out.
fn is_setting(event: &Event) -> bool
    ensures { IsTrue result ↔ FitsReply event.now reply.Done }
{
    match event {
        Event::SetFilters(_, _) => true,
        Event::SetOption(_, _) => true,
        Event::Restart(_, _) | Event::Down(_, _) => true,
        _ => false,
    }
}

/// Returns whether this event is an attempt at the moment at which the frame was tried.
fn is_attempt_of(event: &Event, tried: &Tried) -> bool
    ensures { IsTrue result ↔ FitsReply event.now (reply.Attempted (attempt.Tried tried.now)) }
{
    match event {
        Event::Attempt(moment, _) => tried.moment == *moment,
        _ => false,
    }
}

/// Returns whether the item, if there is one, has a valid number.
fn are_numbered(item: &Option<Received>) -> bool
    ensures { IsTrue result ↔ AreNumbered item.now }
{
    match item {
        Some(received) => is_numbered(received),
        None => true,
    }
}

/// Returns whether an item has a valid number: an error message frame has the number 0.
fn is_numbered(received: &Received) -> bool
    ensures { IsTrue result ↔ IsNumbered received.now }
{
    match &received.item {
        Item::Data(_) => true,
        Item::Error(_) => received.number == 0,
    }
}

/// Returns whether an event can have this refusal as its reply.
fn may_refuse(event: &Event, why: Refusal) -> bool
    ensures { IsTrue result ↔ MayRefuse event.now why }
{
    match why {
        Refusal::FdOff => sends_fd(event),
        why => why.leaves_entry(),
    }
}

/// Returns whether an event asks to send an FD frame.
fn sends_fd(event: &Event) -> bool
    ensures { IsTrue result ↔ SendsFd event.now }
{
    match event {
        Event::Send(_, frame) => frame.is_fd(),
        _ => false,
    }
}
