ghost use Rattle.std.specs.Prelude.{◌≡◌, suc, ◌<◌, ◌≤◌, ◌^◌, length, reverse, IfSome};
ghost use Rattle.std.specs.Option.{option_map};
ghost use Rattle.can_bus.specs.AutoRestart.{attempts_off, attempts_off_after, is_due, restarted_next};

use crate::sockets::iface_at;
use can_bus::{Attempt, BusConfig, Entry, Event, Reply};
use can_frame::{Iface, IfaceSet};

// Computes the interfaces that an attempt restarts from the entries before it.

/// Adds one attempt to the count, or returns `None` if there is no count.
fn one_more(before: Option<usize>) -> Option<usize>
    requires { IfSome before (λ k. k < 2 ^ 63) }
    ensures { result ≡ option_map suc before }
{
    match before {
        Some(count) => Some(count + 1),
        None => None,
    }
}

/// Returns the number of attempts since the interface went bus off, after one more entry. Returns `None` if the entry restarts the
/// interface or takes it down.
fn attempts_off_after(entry: &Entry, iface: Iface, before: Option<usize>) -> Option<usize>
    requires { IfSome before (λ k. k < 2 ^ 63) }
    ensures { result ≡ attempts_off_after entry.now.event entry.now.reply iface before }
{
    match &entry.reply {
        Reply::Attempted(Attempt::Idle { restarted }) => {
            if restarted.contains(iface) {
                None
            } else {
                one_more(before)
            }
        }
        Reply::Attempted(Attempt::Tried(tried)) => {
            if tried.restarted.contains(iface) {
                None
            } else if tried.off.contains(iface) {
                Some(0)
            } else {
                one_more(before)
            }
        }
        Reply::Done => match &entry.event {
            Event::Restart(of, _) | Event::Down(of, _) if *of == iface => None,
            _ => before,
        },
        _ => before,
    }
}

/// Returns the number of attempts since the interface went bus off, or `None` if the interface is not bus off.
fn attempts_off(past: &[Entry], iface: Iface) -> Option<usize>
    ensures count { result ≡ attempts_off (reverse past.now) iface }
    ensures few { IfSome result (λ k. k ≤ length past.now) }
{
    let mut off = None;
    for entry in past {
        off = attempts_off_after(entry, iface, off);
    }
    off
}

/// Returns whether the next attempt restarts an interface.
fn is_due(config: BusConfig, past: &[Entry], iface: Iface) -> bool
    ensures { result ≡ is_due config (reverse past.now) iface }
{
    match attempts_off(past, iface) {
        Some(count) => count + 1 == config.auto_restart as usize,
        None => false,
    }
}

/// Returns the interfaces that the next attempt restarts.
pub fn restarted_next(config: BusConfig, past: &[Entry]) -> IfaceSet
    ensures { result ≡ restarted_next config (reverse past.now) }
{
    let mut restarted = IfaceSet::empty();
    for place in 0..16u8 {
        let iface = iface_at(place);
        if place < config.ifaces && is_due(config, past, iface) {
            restarted = restarted.with(iface);
        }
    }
    restarted
}
