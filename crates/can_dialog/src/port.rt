ghost use Rattle.std.specs.Prelude.{◌≡◌};
ghost use Rattle.can_dialog.specs.Calls.{cause_of_port, reply_to_rule};

use can_confine::Counters;
use can_event::{Closed, Event, IfaceStats, Opt, Received, Refusal, Reply, SocketId, SocketStats};
use can_filter::FilterSet;
use can_frame::{Frame, Iface, Moment};
use can_proto::{BusLoad, Cause};
use can_rules::RuleRefusal;
use std::alloc::AllocError;
use thiserror::Error;

/// Why a port refuses a call.
#[derive(Debug, Clone, Copy, PartialEq, Eq, Error)]
pub enum PortRefusal {
    /// The bus refused the call, or an allocation failed.
    #[error("{0}")]
    Bus(Refusal),
    /// All passes of the station are in use.
    #[error("too many passes")]
    TooManyPasses,
    /// The pass belongs to another station.
    #[error("wrong station")]
    WrongStation,
    /// The text is not a fault rule.
    #[error("bad rule")]
    BadRule,
    /// The bus already has 64 fault rules.
    #[error("too many rules")]
    TooManyRules,
}

impl PortRefusal {
    /// Returns the cause in the form that a client reads.
    pub fn cause(self) -> Cause
        ensures { result ≡ cause_of_port self }
    {
        match self {
            PortRefusal::Bus(refusal) => Cause::from(refusal),
            PortRefusal::TooManyPasses => Cause::TooManyPasses,
            PortRefusal::WrongStation => Cause::WrongStation,
            PortRefusal::BadRule => Cause::BadRule,
            PortRefusal::TooManyRules => Cause::TooManyRules,
        }
    }
}

impl From<RuleRefusal> for PortRefusal {
    ghost use Rattle.std.specs.Prelude.{◌≡◌};
    ghost use Rattle.can_dialog.specs.Calls.{port_of_rule};

    ghost from_gives = { λ refusal port. port ≡ port_of_rule refusal };

    fn from(refusal: RuleRefusal) -> PortRefusal {
        match refusal {
            RuleRefusal::BadRule => PortRefusal::BadRule,
            RuleRefusal::UnknownInterface => PortRefusal::Bus(Refusal::NoInterface),
            RuleRefusal::TooManyRules => PortRefusal::TooManyRules,
            RuleRefusal::NoMemory => PortRefusal::Bus(Refusal::NoMemory),
        }
    }
}

/// Converts the reply of the fault plan to a rule into the reply of a port.
pub fn rule_reply(outcome: Result<(), RuleRefusal>) -> Result<(), PortRefusal>
    ensures { result ≡ reply_to_rule outcome }
{
    match outcome {
        Ok(()) => Ok(()),
        Err(refusal) => Err(PortRefusal::from(refusal)),
    }
}

/// The interface between a session and a bus, or between a session and a connection to a bus.
///
/// The relation `step` is the law of a port: it relates the state before a call, the call, its reply and the state after the call.
/// Each call is one such step. A port may allocate memory. An implementation defines `call`, `put_names`, `attach`, `socket_stats`,
/// `iface_stats`, `status`, `load` and the three methods for fault rules. Each of the other methods makes one event with `call`.
pub trait Port {
    ghost use Rattle.can_event.specs.Replies.{received_into};
    ghost use Rattle.can_dialog.specs.Calls.{Call, Reply, Steps};
    ghost use Rattle.std.specs.Prelude.{◌≡◌, ◌++◌, ℕ, List, OnOk};
    ghost use Rattle.can_proto.specs.Spelling.{spaced};
    ghost use Rattle.can_dialog.specs.Calls.Call.{Names, Attach, Open, Close, SetFilters, SetOption, Send, Receive, Restart, CountsOfSocket, CountsOfIface, CountersOfIface, LoadAt, Inject, CountsRules, EndsRules, Down};

    /// Relates the state before a call, the call, its reply and the state after the call.
    ghost step: { Self → (call : Call) → Reply call → Self → Type 0 };

    /// Makes an event, and returns the reply of the bus. The reply suits the kind of event, or is a refusal. Returns `Err` if the
    /// event did not reach the bus.
    fn call(&mut self, event: Event) -> Result<Reply, PortRefusal>
        ensures { Steps step self.old event result self.new };

    /// Appends the names of all interfaces that may be attached, in order, each after a space. Returns `AllocError` if an
    /// allocation fails; some names may have been appended then.
    fn put_names(&self, text: &mut Vec<u8>) -> Result<(), AllocError>
        ensures { OnOk result ((names : List (List ℕ)) × step self.now Names names self.now
            × (text.new.items ≡ text.old.items ++ spaced names)) };

    /// Attaches to the interface with this name, and returns the interface.
    fn attach(&mut self, name: &[u8]) -> Result<Iface, PortRefusal>
        ensures { step self.old (Attach name.now) result self.new };

    /// Opens a socket on an interface. At most `capacity` items can wait at the socket.
    fn open(&mut self, iface: Iface, capacity: u32) -> Result<SocketId, PortRefusal>
        ensures { step self.old (Open iface capacity) result self.new }
    {
        self.call(Event::Open(iface, capacity))?
            .into_opened()
            .map_err(PortRefusal::Bus)
    }

    /// Closes a socket.
    fn close(&mut self, socket: SocketId) -> Result<Closed, PortRefusal>
        ensures { step self.old (Close socket) result self.new }
    {
        self.call(Event::Close(socket))?
            .into_closed()
            .map_err(PortRefusal::Bus)
    }

    /// Sets the filters of a socket.
    fn set_filters(&mut self, socket: SocketId, filters: FilterSet) -> Result<(), PortRefusal>
        ensures { step self.old (SetFilters socket filters) result self.new }
    {
        self.call(Event::SetFilters(socket, filters))?
            .into_done()
            .map_err(PortRefusal::Bus)
    }

    /// Sets an option of a socket.
    fn set_option(&mut self, socket: SocketId, option: Opt) -> Result<(), PortRefusal>
        ensures { step self.old (SetOption socket option) result self.new }
    {
        self.call(Event::SetOption(socket, option))?
            .into_done()
            .map_err(PortRefusal::Bus)
    }

    /// Sends a frame on a socket, and returns the number of the frame at the interface.
    fn send(&mut self, socket: SocketId, frame: Frame) -> Result<u64, PortRefusal>
        ensures { step self.old (Send socket frame) result self.new }
    {
        self.call(Event::Send(socket, frame))?
            .into_sent()
            .map_err(PortRefusal::Bus)
    }

    /// Takes the oldest item from a socket.
    fn receive(&mut self, socket: SocketId) -> Result<Option<Received>, PortRefusal>
        ensures { step self.old (Receive socket) result self.new }
    {
        self.call(Event::Receive(socket))?
            .into_received()
            .map_err(PortRefusal::Bus)
    }

    /// Takes the oldest item from a socket into the buffer, and returns whether there was an item.
    fn receive_into(&mut self, socket: SocketId, room: &mut Received) -> Result<bool, PortRefusal>
        ensures { step self.old (Receive socket) (received_into room.new result) self.new }
    {
        match self.receive(socket)? {
            Some(item) => {
                *room = item;
                Ok(true)
            }
            None => Ok(false),
        }
    }

    /// Restarts an interface that is bus off or down, at this time.
    fn restart(&mut self, iface: Iface, moment: Moment) -> Result<(), PortRefusal>
        ensures { step self.old (Restart iface moment) result self.new }
    {
        self.call(Event::Restart(iface, moment))?
            .into_done()
            .map_err(PortRefusal::Bus)
    }

    /// Takes an interface down, at this time.
    fn down(&mut self, iface: Iface, moment: Moment) -> Result<(), PortRefusal>
        ensures { step self.old (Down iface moment) result self.new }
    {
        self.call(Event::Down(iface, moment))?
            .into_done()
            .map_err(PortRefusal::Bus)
    }

    /// Returns the counts of the items that were offered to an open socket.
    fn socket_stats(&mut self, socket: SocketId) -> Option<SocketStats>
        ensures { step self.old (CountsOfSocket socket) result self.new };

    /// Returns the counts of the frames of an interface.
    fn iface_stats(&mut self, iface: Iface) -> Option<IfaceStats>
        ensures { step self.old (CountsOfIface iface) result self.new };

    /// Returns the error counters of an interface, or 0/0 if the port does not know them.
    fn status(&mut self, iface: Iface) -> Counters
        ensures { step self.old (CountersOfIface iface) result self.new };

    /// Returns the load of the bus and its bit rates at this time, as far as the port knows them. The law does not restrict the
    /// values.
    fn load(&mut self, moment: Moment) -> BusLoad
        ensures { step self.old (LoadAt moment) result self.new };

    /// Adds a fault rule to the bus, after the rules that the bus already has. Refusals: `BadRule`, `NoInterface` if the rule names
    /// an interface that the bus does not have, `TooManyRules`, `NoMemory`.
    fn inject(&mut self, rule: &[u8]) -> Result<(), PortRefusal>
        ensures { step self.old (Inject rule.now) result self.new };

    /// Returns the number of the bus's fault rules that are not used up.
    fn rules(&mut self) -> u64
        ensures { step self.old CountsRules result self.new };

    /// Removes all fault rules.
    fn end_rules(&mut self)
        ensures { step self.old EndsRules tt self.new };
}
