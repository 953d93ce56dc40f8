ghost use Rattle.std.specs.Prelude.{◌≡◌};
ghost use Rattle.can_event.specs.Replies.{receive_reply, told};
ghost use Rattle.can_event.specs.declared.event.Event.TheVariants as asked;
ghost use Rattle.can_event.specs.declared.reply.Reply.TheVariants as answer;
ghost use Rattle.can_event.specs.declared.socket_id.SocketId.{SocketId};
ghost use Rattle.can_frame.specs.Frames.{CanFrame};
ghost use Rattle.can_record.specs.Boxed.{needs_box, is_large, is_off_alone};

use can_event::{Attempt, Event, Received, Refusal, Reply};
use can_frame::{Iface, IfaceSet};

/// Returns whether the entry needs a box because it does not fit in 32 bytes.
pub fn needs_box(event: &Event, reply: &Reply) -> bool
    ensures { result ≡ needs_box event.now reply.now }
{
    match (event, reply) {
        (Event::SetFilters(_, _), _) => true,
        (Event::Open(_, _), Reply::Opened(_))
        | (Event::Close(_), Reply::Closed(_))
        | (Event::SetOption(_, _) | Event::Restart(_, _) | Event::Down(_, _), Reply::Done)
        | (Event::Receive(_), Reply::Received(None))
        | (Event::Attempt(_, _), Reply::Attempted(Attempt::Idle { .. }))
        | (_, Reply::Refused(_)) => false,
        (Event::Send(_, _), Reply::Sent(number)) => is_large(*number),
        (Event::Receive(_), Reply::Received(Some(received))) => is_large(received.number),
        (Event::Attempt(moment, _), Reply::Attempted(Attempt::Tried(tried))) => {
            is_large(tried.number)
                || tried.moment != *moment
                || !is_off_alone(tried.winner, tried.off)
        }
        _ => true,
    }
}

/// Returns whether the entry of a receive call needs a box because it does not fit in 32 bytes. The call took an item into `room`,
/// took none, or was refused.
pub fn receive_needs_box(outcome: Result<bool, Refusal>, room: &Received) -> bool
    ensures { (id : SocketId) →
        result ≡ needs_box (asked.Receive id) (receive_reply room.now outcome) }
{
    match outcome {
        Ok(true) => is_large(room.number),
        _ => false,
    }
}

/// Returns whether the entry of a send does not fit in 32 bytes. The send gave the frame this number, or was refused.
pub fn send_needs_box(outcome: Result<u64, Refusal>) -> bool
    ensures { (id : SocketId) → (frame : CanFrame) →
        result ≡ needs_box (asked.Send id frame) (told answer.Sent outcome) }
{
    match outcome {
        Ok(number) => is_large(number),
        Err(_) => false,
    }
}

/// Returns whether the number of a frame needs more than the 32 bits that a packed entry has for it.
fn is_large(number: u64) -> bool
    ensures { result ≡ is_large number }
{
    number >= 0x1_0000_0000
}

/// Returns whether no interface except the winner went bus off.
fn is_off_alone(winner: Iface, off: IfaceSet) -> bool
    ensures { result ≡ is_off_alone winner off }
{
    off.is_empty() || off.0 == 1 << winner.number()
}
