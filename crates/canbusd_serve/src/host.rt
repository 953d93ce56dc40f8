//! The clock and the reports of a running server.
ghost use Rattle.std.specs.Prelude.{◌≡◌, ◌-◌, ◌^◌, ◌/◌, min};
ghost use Rattle.std.specs.Duration.{as_nanos};

use crate::notices::{first_name_at, late_text, notice_line};
use can_frame::Moment;
use can_server::{Clock, Notice};
use canbusd_io::{Report, Shown};
use canbusd_options::{Recording, ServeOptions};
use std::alloc::Global;
use std::io::Write;
use std::sync::atomic::{AtomicBool, Ordering};
use std::sync::{Mutex, Wait};
use std::time::Duration;
use std::{io, time};

/// The latest moment that can be represented, in microseconds.
const LAST: u128 = 9_999_999_999_999_999;

/// The report for a bus whose record is nearly full.
const NEARLY_FULL: &str =
    "the record is nine tenths full; serve --record live or --record none has no such end";

/// The time at which a server with bit rates started. After the start, its timestamps are computed with a clock that cannot be set.
#[derive(Debug, Clone, Copy)]
pub struct Start {
    since_1970: Duration,
    monotonic: Duration,
}

impl Start {
    /// Returns the current time of both clocks, or `None` if a clock cannot be read.
    pub fn now<H: time::Clock>(rt: &H) -> Option<Start> {
        let since_1970 = rt.since_1970().ok()?;
        let monotonic = rt.monotonic().ok()?;
        Some(Start {
            since_1970,
            monotonic,
        })
    }

    /// Returns the time since 1970 that corresponds to this time of the steady clock.
    fn since_1970(&self, monotonic: Duration) -> Duration {
        let passed = monotonic.saturating_sub(self.monotonic);
        self.since_1970.saturating_add(passed)
    }
}

/// The system's clock and the output for reports. Problems of a bus, such as a full record or a late driver, are always reported.
/// Other notices are reported only with `--verbose`.
#[derive(Drop)]
pub struct Host<'h, 'a, 'l, H, E: Write> {
    pub rt: &'h H,
    pub alloc: Global,
    pub options: &'h ServeOptions<'a>,
    pub errors: Mutex<&'h mut E>,
    /// Whether any bus has lost its driver.
    pub has_lost: &'l AtomicBool,
    /// The time of the start, if any bus has bit rates.
    pub start: Option<Start>,
}

impl<H: Wait + time::Clock, E: Write> Clock for Host<'_, '_, '_, H, E> {
    /// Returns the time since 1970, limited to the latest moment that can be represented.
    fn now(&self) -> Moment {
        match self.since_1970() {
            Ok(since) => moment_of(since),
            Err(_) => moment_of(Duration::ZERO),
        }
    }

    fn wants_notices(&self) -> bool {
        self.options.is_verbose
    }

    fn write_bytes(&self) -> usize {
        self.options.write_bytes as usize
    }

    fn notify(&self, notice: Notice) {
        self.put_line(&notice);
        match notice {
            Notice::NearlyFull { bus } if self.options.recording == Recording::AtEnd => {
                self.put("note", bus, NEARLY_FULL);
            }
            Notice::Full { bus } => self.put("note", bus, "record full"),
            Notice::Late { bus, millis } => {
                if let Ok(what) = late_text(self.alloc, millis) {
                    self.put("note", bus, &what);
                }
            }
            Notice::NoDriver { bus } => {
                self.has_lost.store(true, Ordering::SeqCst);
                self.put("canbusd", bus, "no memory");
            }
            _ => {}
        }
    }
}

impl<'a, H: Wait + time::Clock, E: Write> Host<'_, 'a, '_, H, E> {
    /// Returns the time since 1970. If a bus has bit rates, it is computed with the steady clock from the start, so a change of the
    /// system's clock does not disturb a bus.
    fn since_1970(&self) -> io::Result<Duration> {
        match &self.start {
            Some(start) => Ok(start.since_1970(self.rt.monotonic()?)),
            None => self.rt.since_1970(),
        }
    }

    /// Writes the line of a notice if `--verbose` was given.
    fn put_line(&self, notice: &Notice) {
        if !self.options.is_verbose {
            return;
        }
        let buses = &self.options.buses;
        if let Ok(line) = notice_line(self.alloc, self.now(), buses, *notice) {
            let mut errors = self.errors.lock(self.rt);
            let _ = errors.write_all(line.as_bytes());
        }
    }

    /// Reports the error in a file, if there is one.
    pub fn report(&self, kept: Result<(), Report<'_>>) {
        if let Err(failure) = kept {
            let mut errors = self.errors.lock(self.rt);
            failure.write_to(&mut **errors);
        }
    }

    /// Reports that a bus is waiting for one of its files.
    pub fn note_wait(&self, bus: usize, path: &str) {
        let name = self.name_of(bus);
        let path = Shown::whole(path);
        let mut errors = self.errors.lock(self.rt);
        let _ = writeln!(errors, "note: bus {name}: waits for {path}");
    }

    /// Returns the name by which reports call a bus, or an empty string if there is no such bus.
    pub fn name_of(&self, bus: usize) -> &'a str {
        first_name_at(&self.options.buses, bus)
    }

    /// Writes a report about a bus. `kind` is a note, or a fault if the exit status will be 1.
    fn put(&self, kind: &str, bus: usize, what: &str) {
        let name = self.name_of(bus);
        let mut errors = self.errors.lock(self.rt);
        let _ = writeln!(errors, "{kind}: bus {name}: {what}");
    }
}

// Returns the moment for a time since 1970, limited to the latest moment that can be represented.
fn moment_of(since: Duration) -> Moment
    ensures { result ≡ min (as_nanos since / 1000) (10 ^ 16 - 1) }
{
    let micros = since.as_micros().min(LAST) as u64;
    match Moment::new(micros) {
        Ok(moment) => moment,
        Err(_) => unreachable!(),
    }
}
