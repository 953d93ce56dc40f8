ghost use Rattle.std.specs.Prelude.{◌≡◌, ◌<◌, ◌==◌, not, filter, reverse, slice_get, IfOk, OnOk};
ghost use Rattle.std.specs.List.{list_any};
ghost use Rattle.can_audit.specs.Histories.{Yields};
ghost use Rattle.can_audit.specs.inner.Noted.{IsNoted};
ghost use Rattle.can_bus.specs.Sockets.{places, open_sockets, iface_in, capacity_in, options_of, options_after, filters_of, filters_after};

use can_bus::{Entry, Event, Reply, SocketId};
use can_filter::{FilterSet, Options};
use can_frame::Iface;
use std::alloc::{AllocError, Global};
use std::marker::Model;

// Computes the sockets of a bus from its entries.

/// The interface on which a socket was opened, and the largest number of items that its queue holds.
#[derive(Debug, Clone, Copy)]
pub struct Place {
    iface: Iface,
    capacity: u32,
}

impl Model for Place {
    ghost use Rattle.can_bus.specs.Sockets.{Place};

    ghost Value = { Place };

    ghost view = { λ p. record { iface = p.iface; capacity = p.capacity } };

    ghost inverse = { λ v. record { iface = v.iface; capacity = v.capacity } };
}

/// All sockets that have been opened, and the numbers of the sockets that are still open.
#[derive(Drop)]
pub struct Sockets {
    pub places: Vec<Place>,
    pub numbers: Vec<usize>,
}

/// Returns the interface with this number.
pub fn iface_at(number: u8) -> Iface
    requires { number < 16 }
    ensures { result ≡ number }
{
    match Iface::new(number) {
        Some(iface) => iface,
        None => unreachable!(),
    }
}

impl Sockets {
    ghost use Rattle.std.specs.Prelude.{◌≡◌, ◌==◌, slice_get};
    ghost use Rattle.std.specs.List.{list_any};
    ghost use Rattle.can_bus.specs.Sockets.{iface_in, capacity_in};

    /// Returns whether the socket is open.
    pub fn is_open(&self, id: SocketId) -> bool
        ensures { result ≡ list_any (λ k. k == id.0) self.now.numbers.items }
    {
        self.numbers.iter().any(|number| *number == id.0 as usize)
    }

    /// Returns the interface on which the socket was opened.
    pub fn iface_of(&self, id: SocketId) -> Iface
        ensures { result ≡ iface_in (slice_get self.now.places.items id.0) }
    {
        match self.places.get(id.0 as usize) {
            Some(place) => place.iface,
            None => iface_at(0),
        }
    }

    /// Returns the largest number of items that the socket's queue holds.
    pub fn capacity_of(&self, id: SocketId) -> u32
        ensures { result ≡ capacity_in (slice_get self.now.places.items id.0) }
    {
        match self.places.get(id.0 as usize) {
            Some(place) => place.capacity,
            None => 0,
        }
    }
}

/// Removes a number from the list.
fn take_out(numbers: &mut Vec<usize>, closed: usize)
    ensures { numbers.new.items ≡ filter (λ k. not (k == closed)) numbers.old.items }
{
    numbers.retain(|number| *number != closed);
}

/// Updates the sockets after an entry.
fn note(sockets: &mut Sockets, entry: &Entry) -> Result<(), AllocError>
    ensures { OnOk result (IsNoted entry.now sockets.old sockets.new) }
{
    match &entry.event {
        Event::Open(iface, capacity) => {
            if let Reply::Opened(_) = &entry.reply {
                let number = sockets.places.len();
                let place = Place {
                    iface: *iface,
                    capacity: *capacity,
                };
                sockets.places.push(place)?;
                sockets.numbers.push(number)?;
            }
        }
        Event::Close(id) => {
            if let Reply::Closed(_) = &entry.reply {
                take_out(&mut sockets.numbers, id.0 as usize);
            }
        }
        _ => {}
    }
    Ok(())
}

/// Returns the sockets after these entries, which are ordered from the oldest to the newest.
pub fn sockets_of(alloc: Global, past: &[Entry]) -> Result<Sockets, AllocError>
    ensures places { IfOk result (λ s. s.places.items ≡ places (reverse past.now)) }
    ensures open { IfOk result (λ s. s.numbers.items ≡ open_sockets (reverse past.now)) }
{
    let mut sockets = Sockets {
        places: Vec::new(alloc),
        numbers: Vec::new(alloc),
    };
    for entry in past {
        note(&mut sockets, entry)?;
    }
    Ok(sockets)
}

/// Returns the options of a socket after an entry.
fn options_after(entry: &Entry, id: SocketId, before: Options) -> Options
    ensures { result ≡ options_after entry.now.event entry.now.reply id.0 before }
{
    match &entry.event {
        Event::SetOption(of, option) => {
            if of.0 == id.0 && matches!(&entry.reply, Reply::Done) {
                option.set_in(before)
            } else {
                before
            }
        }
        _ => before,
    }
}

/// Returns the current options of a socket, as they were last set.
pub fn options_of(past: &[Entry], id: SocketId) -> Options
    ensures { result ≡ options_of (reverse past.now) id.0 }
{
    let mut options = Options::at_open();
    for entry in past {
        options = options_after(entry, id, options);
    }
    options
}

/// Returns the filters of a socket after an entry.
fn filters_after(
    alloc: Global,
    entry: &Entry,
    id: SocketId,
    before: FilterSet,
) -> Result<FilterSet, AllocError>
    ensures { Yields result (filters_after entry.now.event entry.now.reply id.0 before) }
{
    match &entry.event {
        Event::SetFilters(of, filters) => {
            if of.0 == id.0 && matches!(&entry.reply, Reply::Done) {
                filters.try_copy(alloc)
            } else {
                Ok(before)
            }
        }
        _ => Ok(before),
    }
}

/// Returns the current filters of a socket, as they were last set.
pub fn filters_of(alloc: Global, past: &[Entry], id: SocketId) -> Result<FilterSet, AllocError>
    ensures { Yields result (filters_of (reverse past.now) id.0) }
{
    let mut filters = FilterSet::all(alloc)?;
    for entry in past {
        filters = filters_after(alloc, entry, id, filters)?;
    }
    Ok(filters)
}
