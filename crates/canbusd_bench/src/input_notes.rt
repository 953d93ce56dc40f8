//! Writes the note on a wrong line of the bench's input.
use can_session::lines::LONGEST_LINE;
use can_session::{Order, SessionNumber, read_order};
use canbusd_io::{Shown, SourceLine, WITH_CR, fixed_note, rule_note};
use canbusd_options::has_name;
use std::alloc::{AllocError, Global};
use std::str;

// The form of a line that takes an interface down or brings it up.
const CHANGE_FORM: &str =
    "down NAME or up NAME: one space comes before the name of an interface, as down can0";

/// Returns a note with the wrong line of the bench's input and the reason. `bus` contains the names of the bus, and `is_timed` is
/// true if the bus has bit rates.
pub fn input_note(
    alloc: Global,
    place: &str,
    bus: &str,
    is_timed: bool,
    number: u32,
    line: &[u8],
) -> Result<String, AllocError> {
    let order = if line.len() > LONGEST_LINE {
        None
    } else {
        read_order(line)
    };
    let note = match &order {
        Some(Order::Session(session)) => started_note(alloc, *session)?,
        Some(Order::Feed(session, _) | Order::Drain(session) | Order::End(session)) => {
            missing_note(alloc, *session)?
        }
        Some(Order::Run(_)) => fixed_note(alloc, run_note(is_timed))?,
        Some(Order::Fault(rule)) => rule_note(alloc, str::from_utf8(rule).unwrap_or(""), bus)?,
        Some(Order::Down(name) | Order::Up(name)) => iface_note(alloc, name, bus)?,
        _ => fixed_note(alloc, form_of(line, is_timed))?,
    };
    let line = SourceLine::new(place, u64::from(number), line);
    format!(in alloc; "  {line}\n{note}")
}

fn started_note(alloc: Global, session: SessionNumber) -> Result<String, AllocError> {
    let number = session.number();
    format!(in alloc; "  session {number} was started before: a number is used once\n")
}

fn missing_note(alloc: Global, session: SessionNumber) -> Result<String, AllocError> {
    let number = session.number();
    format!(in alloc; "  no line before it starts session {number}\n")
}

// Returns the reason why an interface cannot be taken down or brought up: no interface has this name, or the interface is already
// up.
fn iface_note(alloc: Global, name: &[u8], bus: &str) -> Result<String, AllocError> {
    if let [.., b'\r'] = name {
        return fixed_note(alloc, WITH_CR);
    }
    let shown = Shown::cut(name);
    if has_name(bus, str::from_utf8(name).unwrap_or("")) {
        format!(in alloc; "  {shown} is neither bus off nor down\n")
    } else if name.is_empty() {
        fixed_note(alloc, CHANGE_FORM)
    } else {
        format!(in alloc; "  {shown} is none of {bus}\n")
    }
}

// Returns the reason why a line that runs the bench to a timestamp is not valid.
fn run_note(is_timed: bool) -> &'static str {
    if is_timed {
        "the moment set is a later one"
    } else {
        "run needs --bitrate: without it attempts take no time"
    }
}

// Returns the form that a line should have if it is not a valid command.
fn form_of(line: &[u8], is_timed: bool) -> &'static str {
    if line.len() > LONGEST_LINE {
        return "a line has at most 4096 bytes";
    }
    if let [.., b'\r'] = line {
        return WITH_CR;
    }
    let word = line.split(|byte| *byte == b' ').next().unwrap_or(line);
    match word {
        b"at" => "at SECONDS.MICROS: 1 to 10 digits, a point, 6 digits, as at 1.500000",
        b"run" => "run SECONDS.MICROS: 1 to 10 digits, a point, 6 digits, as run 1.500000",
        b"session" | b"drain" | b"end" =>
            "a session is 1 to 64 without leading zeros, after one space",
        b"feed" =>
            "feed S BYTES: S is 1 to 64 without leading zeros, and one space comes before BYTES",
        b"attempt" => "nothing may follow attempt: each line makes one attempt",
        b"fault" => "fault RULE: one space comes before RULE",
        b"down" | b"up" => CHANGE_FORM,
        _ if is_timed =>
            "a line begins with at, session, feed, drain, end, fault, attempt, down, up or run; see canbusd help bench",
        _ =>
            "a line begins with at, session, feed, drain, end, fault, attempt, down or up; see canbusd help bench",
    }
}
