//! Reads the counts, the load and the record of a bus. It also sets filters.
ghost use Rattle.std.specs.Prelude.{◌≡◌, ◌<◌, ◌≤◌, ◌+◌, length, take, drop, IfOk, Some, None, replicate, ◌∷◌, [], true};
ghost use Rattle.can_filter.specs.Filters.{CanFilter};
ghost use Rattle.can_event.specs.declared.event.Event.TheVariants as event;
ghost use Rattle.can_record.specs.Outcomes.{done_reply};
ghost use Rattle.can_session.specs.Wires.{load_at};
ghost use Rattle.can_record_text.specs.Texts.{text_of};
ghost use Rattle.can_record.specs.Journal.{Journal};
ghost use Rattle.canbusd_c.specs.Shapes.{status_out, stats_out, load_out};
ghost use Rattle.canbusd_c.specs.Codes.{IsUntouched};
ghost use Rattle.canbusd_c.specs.Calls.{IsCountsCall, IsFront, iface_counts, socket_counts, AreFilters, filters_of_structs, iface_of_number, moment_of_micros, IsFiltersCall, IsLoadCall, IsRecordCall};

use crate::calls::{iface_of, moment_of};
use crate::codes::{
    BAD_FILTER, BAD_MOMENT, NO_INTERFACE, NO_MEMORY, NO_SOCKET, OK, TOO_MANY_FILTERS, done_code,
};
use crate::local_bus::LocalBus;
use crate::shapes::{CFilter, CLoad, CStats, CStatus};
use crate::shaping::{load_out, stats_out, status_out};
use can_bus::SocketId;
use can_filter::{Filter, FilterError, FilterSet};
use can_record_text::record_text;
use std::alloc::Global;

/// Writes the counts, the error counters and the state of an interface to `status`.
pub fn status(bus: &LocalBus, iface: u32, status: &mut CStatus) -> u32
    ensures { IsCountsCall 2 status_out (iface_counts bus.now (iface_of_number iface)) status.old
        result status.new }
{
    let Some(iface) = iface_of(iface) else {
        return NO_INTERFACE;
    };
    match bus.iface_stats(iface) {
        Some(stats) => {
            *status = status_out(&stats);
            OK
        }
        None => NO_INTERFACE,
    }
}

/// Writes the counts of a socket to `stats`.
pub fn stats(bus: &LocalBus, socket: u32, stats: &mut CStats) -> u32
    ensures { IsCountsCall 5 stats_out (socket_counts bus.now socket) stats.old result stats.new }
{
    match bus.socket_stats(SocketId(socket)) {
        Some(counts) => {
            *stats = stats_out(&counts);
            OK
        }
        None => NO_SOCKET,
    }
}

/// Writes to `load` how busy the wire is at a moment.
pub fn load(bus: &LocalBus, moment: u64, load: &mut CLoad) -> u32
    ensures read { IsLoadCall (moment_of_micros moment) bus.now result load.new }
    ensures kept { IsUntouched result load.old load.new }
{
    let Some(moment) = moment_of(moment) else {
        return BAD_MOMENT;
    };
    *load = load_out(&bus.load(moment));
    OK
}

/// Writes the text of the record, as far as it fits into the buffer, and the length of the whole text.
pub fn write_record(alloc: Global, bus: &LocalBus, to: &mut [u8], len: &mut usize) -> u32
    ensures written { IsRecordCall bus.now to.old result len.new to.new }
    ensures kept { IsUntouched result len.old len.new }
    ensures same_text { IsUntouched result to.old to.new }
{
    let Ok(text) = record_text(alloc, bus.record()) else {
        return NO_MEMORY;
    };
    *len = text.len();
    put_front(&text, to);
    OK
}

/// Writes as much of a text as fits into the buffer.
pub fn put_front(text: &[u8], to: &mut [u8])
    ensures { IsFront text.now to.old to.new }
{
    let end = text.len().min(to.len());
    to[..end].copy_from_slice(&text[..end]);
}

/// Returns the filters in an array of structs, or the code of the first error.
fn listed_filters(alloc: Global, filters: &[CFilter]) -> Result<Vec<Filter>, u32>
    ensures { AreFilters (filters_of_structs filters.now) result }
{
    let mut list = Vec::new(alloc);
    for filter in filters {
        let Ok(filter) = Filter::new(filter.id, filter.mask) else {
            return Err(BAD_FILTER);
        };
        if list.push(filter).is_err() {
            return Err(NO_MEMORY);
        }
    }
    Ok(list)
}

/// Sets the filters of a socket.
pub fn set_filters(alloc: Global, bus: &mut LocalBus, socket: u32, filters: &[CFilter]) -> u32
    ensures { IsFiltersCall socket (filters_of_structs filters.now) bus.old result bus.new }
{
    let list = match listed_filters(alloc, filters) {
        Ok(list) => list,
        Err(code) => return code,
    };
    match FilterSet::listed(alloc, &list) {
        Ok(set) => done_code(bus.set_filters(SocketId(socket), &set)),
        Err(FilterError::TooManyFilters) => TOO_MANY_FILTERS,
        Err(FilterError::NoMemory) => NO_MEMORY,
    }
}
