ghost use Rattle.std.specs.Prelude.{◌≡◌, true};
ghost use Rattle.can_event.specs.Replies.{enters, receive_reply, told};
ghost use Rattle.can_event.specs.declared.event.Event.TheVariants as event;
ghost use Rattle.can_event.specs.declared.reply.Reply.{Reply};
ghost use Rattle.can_event.specs.declared.reply.Reply.TheVariants as reply;
ghost use Rattle.can_event.specs.declared.received.Received.{Received};
ghost use Rattle.can_station.specs.Passes.{HasMemoryForCall, Keeps};

use can_bus::{Received, Refusal, SocketId};
use can_frame::Frame;
use can_record::PackedList;

/// Returns whether a receive call with this outcome adds an entry to the record.
fn receive_enters(outcome: Result<bool, Refusal>) -> bool
    ensures { (room : Received) → result ≡ enters (receive_reply room outcome) }
{
    match outcome {
        Ok(_) => true,
        Err(why) => why.leaves_entry(),
    }
}

/// Returns whether a send with this outcome adds an entry to the record.
fn send_enters(outcome: Result<u64, Refusal>) -> bool
    ensures { result ≡ enters (told reply.Sent outcome) }
{
    match outcome {
        Ok(_) => true,
        Err(why) => why.leaves_entry(),
    }
}

/// Adds a receive call with this outcome and `room` to the list of the pass. Adds nothing if the pass keeps no list or if the call
/// adds no entry to the record. Nothing is allocated.
pub(crate) fn keep_receive(
    calls: &mut Option<PackedList>,
    socket: SocketId,
    outcome: Result<bool, Refusal>,
    room: &Received,
)
    requires { HasMemoryForCall calls.old }
    ensures { Keeps calls.old (event.Receive socket) (receive_reply room.now outcome) calls.new }
{
    let Some(list) = calls else {
        return;
    };
    if receive_enters(outcome) {
        list.push_receive(socket, outcome, room);
    }
}

/// Adds a send with this outcome to the list of the pass. Adds nothing if the pass keeps no list or if the call adds no entry to
/// the record. Nothing is allocated.
pub(crate) fn keep_send(
    calls: &mut Option<PackedList>,
    socket: SocketId,
    frame: &Frame,
    outcome: Result<u64, Refusal>,
)
    requires { HasMemoryForCall calls.old }
    ensures { Keeps calls.old (event.Send socket frame.now) (told reply.Sent outcome) calls.new }
{
    let Some(list) = calls else {
        return;
    };
    if send_enters(outcome) {
        list.push_send(socket, frame, outcome);
    }
}
