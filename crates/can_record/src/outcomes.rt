ghost use Rattle.std.specs.Prelude.{◌≡◌};
ghost use Rattle.can_event.specs.Replies.{receive_reply, told};
ghost use Rattle.can_event.specs.declared.reply.Reply.TheVariants as reply;

use can_event::{Received, Refusal, Reply};

/// Returns the reply to a send call, which gave this number to the frame or was refused.
pub fn sent_reply(outcome: &Result<u64, Refusal>) -> Reply
    ensures { result ≡ told reply.Sent outcome.now }
{
    match outcome {
        Ok(number) => Reply::Sent(*number),
        Err(why) => Reply::Refused(*why),
    }
}

/// Returns the reply to a receive call, which took an item into `room`, took none, or was refused.
pub fn receive_reply(outcome: Result<bool, Refusal>, room: &Received) -> Reply
    ensures { result ≡ receive_reply room.now outcome }
{
    match outcome {
        Ok(true) => Reply::Received(Some(*room)),
        Ok(false) => Reply::Received(None),
        Err(why) => Reply::Refused(why),
    }
}
