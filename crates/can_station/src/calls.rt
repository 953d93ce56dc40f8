ghost use Rattle.can_record.specs.Outcomes.{done_reply};
ghost use Rattle.can_event.specs.declared.event.Event.TheVariants as event;
ghost use Rattle.can_event.specs.declared.reply.Reply.TheVariants as reply;
ghost use Rattle.can_station.specs.Passes.{Answered, Called};

use crate::bus_name::BusName;
use crate::gate::Gate;
use crate::pass::Pass;
use crate::refusals::StationRefusal;
use crate::station::Station;
use can_bus::{Attempt, Closed, Event, Journaled, Opt, Received, Refusal, SocketId};
use can_fault::{FaultSource, Verdict};
use can_filter::FilterSet;
use can_frame::{Frame, Iface, Moment};
use std::alloc::Global;
use std::sync::Wait;

// The nine calls that a pass can make. Each call is one event of the bus. The station checks before the bus does: it returns
// `NoMemory` if the pass's list of calls cannot grow, and `WrongStation` if the pass belongs to another station. These two refusals
// change nothing.
impl<N: BusName, F: FaultSource + Drop, G: Gate + Drop, B: Journaled> Station<N, F, G, B> {
    /// Opens a socket on an interface, with room for `capacity` waiting items. Refusals of the bus:
    /// `RecordFull`, `NoInterface`, `BadCapacity`, `TooManySockets`, `NoMemory`.
    pub fn open<R: Wait>(
        &self,
        rt: &R,
        alloc: Global,
        pass: &mut Pass<N>,
        iface: Iface,
        capacity: u32,
    ) -> Result<SocketId, StationRefusal>
        ensures called { Called reply.Opened self.now.number pass.old
            (event.Open iface capacity) result pass.new }
        ensures answered { Answered F reply.Opened self.now (event.Open iface capacity) result }
    {
        self.call(rt, alloc, pass, Event::Open(iface, capacity))?
            .into_opened()
            .map_err(StationRefusal::Bus)
    }

    /// Closes a socket, and returns the number of its unread items and the number of its dropped items. Refusals of the bus:
    /// `RecordFull`, `NoSocket`.
    pub fn close<R: Wait>(
        &self,
        rt: &R,
        alloc: Global,
        pass: &mut Pass<N>,
        socket: SocketId,
    ) -> Result<Closed, StationRefusal>
        ensures called { Called reply.Closed self.now.number pass.old
            (event.Close socket) result pass.new }
        ensures answered { Answered F reply.Closed self.now (event.Close socket) result }
    {
        self.call(rt, alloc, pass, Event::Close(socket))?
            .into_closed()
            .map_err(StationRefusal::Bus)
    }

    /// Replaces the filters of a socket with a copy of these filters. Refusals of the bus: `RecordFull`, `NoMemory`, `NoSocket`.
    pub fn set_filters<R: Wait>(
        &self,
        rt: &R,
        alloc: Global,
        pass: &mut Pass<N>,
        socket: SocketId,
        filters: &FilterSet,
    ) -> Result<(), StationRefusal>
        ensures called { Called done_reply self.now.number pass.old
            (event.SetFilters socket filters.now) result pass.new }
        ensures answered { Answered F done_reply self.now
            (event.SetFilters socket filters.now) result }
    {
        let Ok(copy) = filters.try_copy(alloc) else {
            return Err(StationRefusal::Bus(Refusal::NoMemory));
        };
        self.call(rt, alloc, pass, Event::SetFilters(socket, copy))?
            .into_done()
            .map_err(StationRefusal::Bus)
    }

    /// Sets an option of a socket. Refusals of the bus: `RecordFull`, `NoSocket`.
    pub fn set_option<R: Wait>(
        &self,
        rt: &R,
        alloc: Global,
        pass: &mut Pass<N>,
        socket: SocketId,
        option: Opt,
    ) -> Result<(), StationRefusal>
        ensures called { Called done_reply self.now.number pass.old
            (event.SetOption socket option) result pass.new }
        ensures answered { Answered F done_reply self.now (event.SetOption socket option) result }
    {
        self.call(rt, alloc, pass, Event::SetOption(socket, option))?
            .into_done()
            .map_err(StationRefusal::Bus)
    }

    /// Sends a frame on a socket, and returns the number of the frame at the interface. Refusals of the bus: `RecordFull`,
    /// `NoSocket`, `FdOff`, `BusOff`, `Down`, `NoBuffers`.
    pub fn send<R: Wait>(
        &self,
        rt: &R,
        alloc: Global,
        pass: &mut Pass<N>,
        socket: SocketId,
        frame: Frame,
    ) -> Result<u64, StationRefusal>
        ensures called { Called reply.Sent self.now.number pass.old
            (event.Send socket frame) result pass.new }
        ensures answered { Answered F reply.Sent self.now (event.Send socket frame) result }
    {
        self.call(rt, alloc, pass, Event::Send(socket, frame))?
            .into_sent()
            .map_err(StationRefusal::Bus)
    }

    /// Takes the oldest item from a socket, or returns `None` if no item is queued. Refusals of the bus: `RecordFull`, `NoSocket`.
    pub fn receive<R: Wait>(
        &self,
        rt: &R,
        alloc: Global,
        pass: &mut Pass<N>,
        socket: SocketId,
    ) -> Result<Option<Received>, StationRefusal>
        ensures called { Called reply.Received self.now.number pass.old
            (event.Receive socket) result pass.new }
        ensures answered { Answered F reply.Received self.now (event.Receive socket) result }
    {
        self.call(rt, alloc, pass, Event::Receive(socket))?
            .into_received()
            .map_err(StationRefusal::Bus)
    }

    /// Tries the frame that wins arbitration, with this verdict instead of the verdict of the source. Returns `Idle` if no live
    /// interface has a frame to send. Interfaces that are due for a restart are restarted first. An attempt that tries a frame uses
    /// the next attempt number, and the source's verdict for that number is then never used. Refusal of the bus: `RecordFull`.
    pub fn attempt<R: Wait>(
        &self,
        rt: &R,
        alloc: Global,
        pass: &mut Pass<N>,
        moment: Moment,
        verdict: Verdict,
    ) -> Result<Attempt, StationRefusal>
        ensures called { Called reply.Attempted self.now.number pass.old
            (event.Attempt moment verdict) result pass.new }
        ensures answered { Answered F reply.Attempted self.now
            (event.Attempt moment verdict) result }
    {
        self.call(rt, alloc, pass, Event::Attempt(moment, verdict))?
            .into_attempted()
            .map_err(StationRefusal::Bus)
    }

    /// Restarts an interface that is bus off or down, with the timestamp `moment`. Refusals of the bus: `RecordFull`,
    /// `NoInterface`, `NotBusOff`.
    pub fn restart<R: Wait>(
        &self,
        rt: &R,
        alloc: Global,
        pass: &mut Pass<N>,
        iface: Iface,
        moment: Moment,
    ) -> Result<(), StationRefusal>
        ensures called { Called done_reply self.now.number pass.old
            (event.Restart iface moment) result pass.new }
        ensures answered { Answered F done_reply self.now (event.Restart iface moment) result }
    {
        self.call(rt, alloc, pass, Event::Restart(iface, moment))?
            .into_done()
            .map_err(StationRefusal::Bus)
    }

    /// Takes an interface down, with the timestamp `moment`. The interface takes no part in traffic until it is restarted, and the
    /// frames in its transmit queue are lost. Refusals of the bus: `RecordFull`, `NoInterface`.
    pub fn down<R: Wait>(
        &self,
        rt: &R,
        alloc: Global,
        pass: &mut Pass<N>,
        iface: Iface,
        moment: Moment,
    ) -> Result<(), StationRefusal>
        ensures called { Called done_reply self.now.number pass.old
            (event.Down iface moment) result pass.new }
        ensures answered { Answered F done_reply self.now (event.Down iface moment) result }
    {
        self.call(rt, alloc, pass, Event::Down(iface, moment))?
            .into_done()
            .map_err(StationRefusal::Bus)
    }
}
