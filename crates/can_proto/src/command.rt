ghost use Rattle.std.specs.Prelude.{Some};
ghost use Rattle.can_proto.specs.Words.{words_of};
ghost use Rattle.can_proto.specs.Commands.{GivesBut, keeps_on_heap, command_of, reading};

use crate::arguments::read_arguments;
use crate::client_words::{WantedName, WantedRule};
use crate::fault::ProtoFault;
use crate::message::Message;
use crate::verb::{Verb, after_send, is_allowed_in, verb_of};
use crate::words::next_word;
use can_event::Opt;
use can_filter::FilterSet;
use can_frame::Frame;
use std::alloc::Global;

/// The stage of a session.
#[derive(Debug, Clone, Copy, PartialEq, Eq)]
pub enum Mode {
    /// The client has just connected and has opened no interface.
    NoBus,
    /// The client has opened an interface but has no socket on it.
    Opened,
    /// Raw mode: the client has an open socket.
    Raw,
    /// The session is over.
    Ended,
}

/// A request of a client.
#[derive(Debug, Drop)]
pub enum Command {
    /// Request a reply.
    Echo,
    /// Request the names of all interfaces that may be opened.
    Interfaces,
    /// Open the interface of this name.
    Open(WantedName),
    /// Enter raw mode.
    Rawmode,
    /// Send a data frame, a remote frame or an FD frame.
    Send(Frame),
    /// Receive only the frames that pass these filters.
    SetFilters(FilterSet),
    /// Change an option of the socket.
    SetOption(Opt),
    /// Turn the data in error message frames on or off. If it is off, the client receives only their classes.
    ErrData(bool),
    /// Turn the reply with the number of each sent frame on or off.
    Ack(bool),
    /// Turn the origin of each received frame on or off.
    Origin(bool),
    /// Request the counts of frames and items.
    Stats,
    /// Request the error counters and the state of the interface.
    Status,
    /// Request the load of the bus.
    Load,
    /// Restart the interface if it is bus off or down.
    Restart,
    /// Add one fault rule to the bus.
    Fault(WantedRule),
    /// Request the number of fault rules that the bus has.
    Faults,
    /// Remove all fault rules of the bus.
    NoFaults,
    /// Close the socket and end the session.
    Close,
    /// Take the interface down.
    Down,
}

impl Command {
    /// Returns the command that a message spells in this mode, or the first fault of the message. Returns `NoMemory` only if the
    /// message has no other fault. The running time grows with the length of the message.
    pub fn read(alloc: Global, mode: Mode, message: &Message) -> Result<Command, ProtoFault>
        ensures { GivesBut keeps_on_heap result (reading mode (words_of message.now)) }
    {
        let text = message.inside();
        if let Some(rest) = after_send(text) {
            return read_verb(alloc, Verb::Send, mode, rest);
        }
        let Some((word, rest)) = next_word(text) else {
            return Err(ProtoFault::EmptyMessage);
        };
        let Some(verb) = verb_of(word) else {
            return Err(ProtoFault::UnknownCommand);
        };
        read_verb(alloc, verb, mode, rest)
    }
}

/// Returns the command that a verb and the words after it spell in this mode.
#[inline(always)]
fn read_verb(alloc: Global, verb: Verb, mode: Mode, rest: &[u8]) -> Result<Command, ProtoFault>
    ensures { GivesBut keeps_on_heap result (command_of mode (words_of rest.now) (Some verb)) }
{
    if !is_allowed_in(verb, mode) {
        return Err(ProtoFault::WrongState);
    }
    read_arguments(alloc, verb, rest)
}
