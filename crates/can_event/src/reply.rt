ghost use Rattle.std.specs.Prelude.{◌≡◌};
ghost use Rattle.can_event.specs.Replies.{IsAttemptReply, IsCloseReply, IsDoneReply, IsOpenReply, IsReceiveReply, IsSendReply, enters, told};
ghost use Rattle.can_event.specs.declared.reply.Reply.TheVariants as reply;

use crate::attempt::Attempt;
use crate::received::Received;
use crate::refusal::Refusal;
use crate::socket_id::SocketId;

/// The result of closing a socket: the number of unread items, and the number of items that were dropped because the queue was
/// full.
#[derive(Debug, Clone, Copy, PartialEq, Eq)]
pub struct Closed {
    pub unread: u64,
    pub dropped: u64,
}

/// The reply to a call.
#[derive(Debug, Clone, Copy, PartialEq, Eq)]
pub enum Reply {
    /// A socket was opened.
    Opened(SocketId),
    /// A socket was closed.
    Closed(Closed),
    /// Filters or an option were set, or an interface was restarted or taken down.
    Done,
    /// The frame was accepted for sending, and has this number at its interface.
    Sent(u64),
    /// The oldest item, or `None` if no item waits.
    Received(Option<Received>),
    /// The attempt was made, with this result.
    Attempted(Attempt),
    /// The call was refused.
    Refused(Refusal),
}

impl Reply {
    /// Returns whether a call with this reply adds an entry to the record: every reply except the refusals `RecordFull` and
    /// `NoMemory` does.
    pub fn enters(&self) -> bool
        ensures { result ≡ enters self.now }
    {
        match self {
            Reply::Refused(why) => why.leaves_entry(),
            _ => true,
        }
    }

    /// Returns the socket that an `Open` call opened.
    pub fn into_opened(self) -> Result<SocketId, Refusal>
        requires { IsOpenReply self }
        ensures { self ≡ told reply.Opened result }
    {
        match self {
            Reply::Opened(id) => Ok(id),
            Reply::Refused(why) => Err(why),
            _ => unreachable!(),
        }
    }

    /// Returns the counts of the socket that a `Close` call closed.
    pub fn into_closed(self) -> Result<Closed, Refusal>
        requires { IsCloseReply self }
        ensures { self ≡ told reply.Closed result }
    {
        match self {
            Reply::Closed(counts) => Ok(counts),
            Reply::Refused(why) => Err(why),
            _ => unreachable!(),
        }
    }

    /// Returns `Ok` if a call that has no result was carried out.
    pub fn into_done(self) -> Result<(), Refusal>
        requires { IsDoneReply self }
        ensures { self ≡ told (λ done. reply.Done) result }
    {
        match self {
            Reply::Done => Ok(()),
            Reply::Refused(why) => Err(why),
            _ => unreachable!(),
        }
    }

    /// Returns the number that a `Send` call gave to its frame.
    pub fn into_sent(self) -> Result<u64, Refusal>
        requires { IsSendReply self }
        ensures { self ≡ told reply.Sent result }
    {
        match self {
            Reply::Sent(number) => Ok(number),
            Reply::Refused(why) => Err(why),
            _ => unreachable!(),
        }
    }

    /// Returns the item that a `Receive` call took, or `None` if no item was waiting.
    pub fn into_received(self) -> Result<Option<Received>, Refusal>
        requires { IsReceiveReply self }
        ensures { self ≡ told reply.Received result }
    {
        match self {
            Reply::Received(item) => Ok(item),
            Reply::Refused(why) => Err(why),
            _ => unreachable!(),
        }
    }

    /// Returns the result of an `Attempt` call.
    pub fn into_attempted(self) -> Result<Attempt, Refusal>
        requires { IsAttemptReply self }
        ensures { self ≡ told reply.Attempted result }
    {
        match self {
            Reply::Attempted(attempt) => Ok(attempt),
            Reply::Refused(why) => Err(why),
            _ => unreachable!(),
        }
    }
}
