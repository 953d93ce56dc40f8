use can_event::{MAX_LIMIT, MAX_LONG_LIMIT};
use canbusd_io::limits_note;
use canbusd_options::{BusWord, Recording, ServeOptions, has_name};
use std::alloc::{AllocError, Global};

/// Returns a note that says why no server can have these buses.
pub fn buses_note(alloc: Global, options: &ServeOptions<'_>) -> Result<String, AllocError> {
    let buses = options.buses.as_slice();
    let count = buses.len();
    if count > 16 {
        return format!(in alloc; "  {count} buses: a server has 1 to 16\n");
    }
    match shared_name(buses) {
        Some(name) => format!(in alloc; "  {name}: two buses have this name\n"),
        None => limits_note(alloc, &options.settings, most_limit(options.recording)),
    }
}

// Returns the largest value of `--limit` for this kind of recording.
fn most_limit(recording: Recording) -> u32 {
    match recording {
        Recording::AtEnd => MAX_LIMIT,
        Recording::Live | Recording::Never => MAX_LONG_LIMIT,
    }
}

// Returns a name that two buses have. A name that only one bus has twice does not count.
fn shared_name<'a>(buses: &[BusWord<'a>]) -> Option<&'a str> {
    buses.iter().flat_map(|bus| bus.names.split(',')).find(|name| {
        buses.iter().filter(|bus| has_name(bus.names, name)).count() > 1
    })
}
