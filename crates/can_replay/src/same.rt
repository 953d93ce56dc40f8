ghost use Rattle.std.specs.Prelude.{◌≡◌, ◌↔◌, IsTrue};

use can_bus::{Attempt, Closed, Received, Reply, Tried};
use can_frame::{Frame, Item};

// Compares two replies. Each type has its own function, so that the proof handles one type at a time.

fn same_frame(one: Frame, other: Frame) -> bool
    ensures { IsTrue result ↔ (one ≡ other) }
{
    one == other
}

fn same_item(one: &Item, other: &Item) -> bool
    ensures { IsTrue result ↔ (one.now ≡ other.now) }
{
    match one {
        Item::Data(frame) => match other {
            Item::Data(more) => same_frame(*frame, *more),
            Item::Error(_) => false,
        },
        Item::Error(message) => match other {
            Item::Data(_) => false,
            Item::Error(more) => *message == *more,
        },
    }
}

fn same_received(one: &Received, other: &Received) -> bool
    ensures { IsTrue result ↔ (one.now ≡ other.now) }
{
    same_item(&one.item, &other.item)
        && one.from.number() == other.from.number()
        && one.number == other.number
        && one.moment.micros() == other.moment.micros()
}

fn same_taken(one: &Option<Received>, other: &Option<Received>) -> bool
    ensures { IsTrue result ↔ (one.now ≡ other.now) }
{
    match one {
        None => other.is_none(),
        Some(received) => match other {
            None => false,
            Some(more) => same_received(received, more),
        },
    }
}

fn same_tried(one: &Tried, other: &Tried) -> bool
    ensures { IsTrue result ↔ (one.now ≡ other.now) }
{
    one.moment.micros() == other.moment.micros()
        && one.winner.number() == other.winner.number()
        && one.number == other.number
        && same_frame(one.frame, other.frame)
        && one.class == other.class
        && one.accepted.0 == other.accepted.0
        && one.off.0 == other.off.0
        && one.restarted.0 == other.restarted.0
}

fn same_closed(one: &Closed, other: &Closed) -> bool
    ensures { IsTrue result ↔ (one.now ≡ other.now) }
{
    one.unread == other.unread && one.dropped == other.dropped
}

/// Returns whether two replies are equal.
pub(crate) fn same_reply(one: &Reply, other: &Reply) -> bool
    ensures { IsTrue result ↔ (one.now ≡ other.now) }
{
    match one {
        Reply::Opened(id) => match other {
            Reply::Opened(more) => id.0 == more.0,
            _ => false,
        },
        Reply::Closed(counts) => match other {
            Reply::Closed(more) => same_closed(counts, more),
            _ => false,
        },
        Reply::Done => matches!(other, Reply::Done),
        Reply::Sent(number) => match other {
            Reply::Sent(more) => *number == *more,
            _ => false,
        },
        Reply::Received(taken) => match other {
            Reply::Received(more) => same_taken(taken, more),
            _ => false,
        },
        Reply::Attempted(Attempt::Idle { restarted }) => match other {
            Reply::Attempted(Attempt::Idle { restarted: more }) => restarted.0 == more.0,
            _ => false,
        },
        Reply::Attempted(Attempt::Tried(tried)) => match other {
            Reply::Attempted(Attempt::Tried(more)) => same_tried(tried, more),
            _ => false,
        },
        Reply::Refused(why) => match other {
            Reply::Refused(more) => *why == *more,
            _ => false,
        },
    }
}
