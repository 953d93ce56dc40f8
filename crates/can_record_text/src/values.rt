//! Range facts for the types of a value. These functions do nothing when they run. They let the checker use the range of a
//! parameter or of a number that is read.
ghost use Rattle.std.specs.Prelude.{ℕ, slice_index, ◌<◌, ◌^◌, All};
ghost use Rattle.can_frame.specs.FrameText.{IsItem};
ghost use Rattle.can_frame.specs.declared.item.Item.TheVariants as item;
ghost use Rattle.can_record_text.specs.Values.{HoldsFilter, HoldsOption, HoldsVerdict, HoldsEvent, HoldsReceived, HoldsTried, HoldsReply};

use can_event::{Attempt, Closed, Event, Opt, Received, Reply, SocketId, Tried};
use can_fault::Verdict;
use can_filter::Filter;
use can_frame::{ErrorFrame, Frame, IfaceSet, Item};

/// The arguments of an event are within the ranges of their types.
pub(crate) fn hold_event(event: &Event)
    ensures { HoldsEvent event.now }
{
    match event {
        Event::Open(iface, capacity) => {
            let _number = iface.number();
            let _capacity = *capacity;
        }
        Event::Close(id) | Event::Receive(id) => hold_socket(*id),
        Event::SetFilters(id, set) => {
            hold_socket(*id);
            hold_filters(set.filters());
        }
        Event::SetOption(id, option) => {
            hold_socket(*id);
            hold_option(*option);
        }
        Event::Send(id, frame) => {
            hold_socket(*id);
            hold_frame(*frame);
        }
        Event::Attempt(moment, verdict) => {
            let _micros = moment.micros();
            hold_verdict(*verdict);
        }
        Event::Restart(iface, moment) | Event::Down(iface, moment) => {
            let _number = iface.number();
            let _micros = moment.micros();
        }
    }
}

fn hold_socket(id: SocketId)
    ensures { id.0 < 2 ^ 32 }
{}

/// A set of interfaces has 16 bits.
fn hold_set(set: IfaceSet)
    ensures { set.0 < 2 ^ 16 }
{}

fn hold_counts(counts: Closed)
    ensures { (counts.unread < 2 ^ 64) × (counts.dropped < 2 ^ 64) }
{}

fn hold_filters(filters: &[Filter])
    ensures { All HoldsFilter filters.now }
{
    for filter in filters {
        hold_filter(*filter);
    }
}

fn hold_filter(filter: Filter)
    ensures { HoldsFilter filter }
{}

fn hold_option(option: Opt)
    ensures { HoldsOption option }
{}

fn hold_verdict(verdict: Verdict)
    ensures { HoldsVerdict verdict }
{}

fn hold_frame(frame: Frame)
    ensures { IsItem (item.Data frame) }
{
    let _number = frame.id().number();
    let _len = frame.len();
    hold_bytes(frame.bytes());
}

fn hold_bytes(bytes: &[u8])
    ensures { (i : ℕ) → slice_index bytes.now i < 256 }
{
    let _len = bytes.len();
}

fn hold_error(error: ErrorFrame)
    ensures { IsItem (item.Error error) }
{}

fn hold_item(item: &Item)
    ensures { IsItem item.now }
{
    match item {
        Item::Data(frame) => hold_frame(*frame),
        Item::Error(error) => hold_error(*error),
    }
}

/// The parts of a reply are within the ranges of their types.
pub(crate) fn hold_reply(reply: &Reply)
    ensures { HoldsReply reply.now }
{
    match reply {
        Reply::Opened(id) => hold_socket(*id),
        Reply::Closed(counts) => hold_counts(*counts),
        Reply::Sent(number) => {
            let _number = *number;
        }
        Reply::Received(Some(received)) => hold_received(received),
        Reply::Attempted(Attempt::Tried(tried)) => hold_tried(tried),
        Reply::Attempted(Attempt::Idle { restarted }) => hold_set(*restarted),
        Reply::Done | Reply::Received(None) | Reply::Refused(_) => {}
    }
}

fn hold_received(received: &Received)
    ensures { HoldsReceived received.now }
{
    hold_item(&received.item);
    let _from = received.from.number();
    let _number = received.number;
    let _micros = received.moment.micros();
}

fn hold_tried(tried: &Tried)
    ensures { HoldsTried tried.now }
{
    let _micros = tried.moment.micros();
    let _winner = tried.winner.number();
    let _number = tried.number;
    hold_frame(tried.frame);
    let _accepted = tried.accepted.0;
    let _off = tried.off.0;
    let _restarted = tried.restarted.0;
}
