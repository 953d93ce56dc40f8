//! The lines that `serve --verbose` writes.
ghost use Rattle.std.specs.Prelude.{◌≡◌, [], None, IfSome, slice_get};
ghost use Rattle.canbusd_options.specs.BusWords.{first_name_of};

use can_frame::{Iface, Moment, Text};
use can_server::Notice;
use canbusd_options::BusWord;
use std::alloc::{AllocError, Global};
use std::net::SocketAddr;

/// Returns the line for a notice: the timestamp as in a log, then the session or the bus, and the event.
pub fn notice_line(
    alloc: Global,
    moment: Moment,
    buses: &[BusWord<'_>],
    notice: Notice,
) -> Result<String, AllocError> {
    let text = notice_text(alloc, buses, notice)?;
    let mut time = Text::<17>::new();
    time.push_moment(moment);
    let time = str::from_utf8(time.as_bytes()).unwrap_or("");
    format!(in alloc; "{time} {text}\n")
}

fn notice_text(alloc: Global, buses: &[BusWord<'_>], notice: Notice) -> Result<String, AllocError> {
    match notice {
        Notice::Came { session, from } => {
            let from = from_text(alloc, from)?;
            format!(in alloc; "session {session}: came{from}")
        }
        Notice::TurnedAway { session, from } => {
            let from = from_text(alloc, from)?;
            format!(in alloc; "session {session}: turned away{from}, too many sessions")
        }
        Notice::Strange { session } => {
            format!(in alloc; "session {session}: closed, not a client of canbusd")
        }
        Notice::Opened {
            session,
            bus,
            iface,
        } => {
            let name = name_at(buses, bus, iface);
            format!(in alloc; "session {session}: opened {name}")
        }
        Notice::Went {
            session,
            refused,
            dropped,
        } => format!(in alloc;
            "session {session}: gone, {refused} frames refused, {dropped} dropped"
        ),
        Notice::WentOff { bus, iface } => bus_text(alloc, name_at(buses, bus, iface), "bus off"),
        Notice::Restarted { bus, iface } => bus_text(
            alloc,
            name_at(buses, bus, iface),
            "restarted",
        ),
        Notice::WentDown { bus, iface } => bus_text(alloc, name_at(buses, bus, iface), "down"),
        Notice::Late { bus, millis } => {
            let what = late_text(alloc, millis)?;
            bus_text(alloc, first_name_at(buses, bus), &what)
        }
        Notice::NearlyFull { bus } => bus_text(
            alloc,
            first_name_at(buses, bus),
            "nine tenths full",
        ),
        Notice::Full { bus } => bus_text(alloc, first_name_at(buses, bus), "record full"),
        Notice::NoDriver { bus } => bus_text(alloc, first_name_at(buses, bus), "no memory"),
    }
}

fn bus_text(alloc: Global, name: &str, what: &str) -> Result<String, AllocError> {
    format!(in alloc; "{name}: {what}")
}

/// Returns the report for a bus whose driver was `millis` milliseconds late.
pub fn late_text(alloc: Global, millis: u64) -> Result<String, AllocError> {
    let (seconds, tenths) = (millis / 1000, millis / 100 % 10);
    format!(in alloc; "{seconds}.{tenths} s behind its bit rate")
}

fn from_text(alloc: Global, from: Option<SocketAddr>) -> Result<String, AllocError> {
    match from {
        Some(address) => format!(in alloc; " from {address}"),
        None => Ok(String::new(alloc)),
    }
}

// Returns the name of an interface, or an empty string if there is no such interface.
fn name_at<'a>(buses: &[BusWord<'a>], bus: usize, iface: Iface) -> &'a str {
    match buses.get(bus) {
        Some(bus) => bus
            .names
            .split(',')
            .nth(usize::from(iface.number()))
            .unwrap_or(""),
        None => "",
    }
}

/// Returns the name by which reports call a bus, or an empty string if there is no such bus.
pub fn first_name_at<'a>(buses: &[BusWord<'a>], bus: usize) -> &'a str
    ensures known { IfSome (slice_get buses.now bus)
        (λ word. result.now ≡ first_name_of word.names.now) }
    ensures none { slice_get buses.now bus ≡ None → result.now ≡ [] }
{
    match buses.get(bus) {
        Some(bus) => bus.first_name(),
        None => "",
    }
}
