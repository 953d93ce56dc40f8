ghost use Rattle.std.specs.Prelude.{◌≡◌, ◌≤◌, ◌+◌, ◌++◌, length};
ghost use Rattle.can_frame.specs.Names.{AreNames};
ghost use Rattle.can_logfile.specs.Log.{stamp, winner_name, tried_text, log_line};

use can_attempt::Class;
use can_event::Tried;
use can_frame::{Iface, Item, Moment, Names, Text, frame_text};

/// A line of the log. The longest line has 176 bytes: 20 bytes up to the space after the moment, 15 for the name, 1 for a
/// space, 139 for the frame and 1 for LF.
pub type LogLine = Text<192>;

/// Returns the line of a tried frame.
pub fn log_line(names: &Names, tried: &Tried) -> LogLine
    requires { AreNames names.now }
    ensures { result ≡ log_line names.now tried.now }
{
    let mut line = Text::new();
    push_stamp(&mut line, tried.moment);
    line.push(b' ');
    push_name(&mut line, names, tried.winner);
    line.push(b' ');
    push_text(&mut line, tried);
    line.push(b'\n');
    line
}

/// Appends the moment in brackets.
fn push_stamp(line: &mut LogLine, moment: Moment)
    requires { length line.old + 19 ≤ 192 }
    ensures text { line.new ≡ line.old ++ stamp moment }
    ensures len { length line.new ≡ length line.old + 19 }
{
    let micros = moment.micros();
    line.push(b'(');
    line.push_decimals(10, micros / 1_000_000);
    line.push(b'.');
    line.push_decimals(6, micros % 1_000_000);
    line.push(b')');
}

/// Appends the name of the interface.
fn push_name(line: &mut LogLine, names: &Names, iface: Iface)
    requires names { AreNames names.now }
    requires room { length line.old + 15 ≤ 192 }
    ensures text { line.new ≡ line.old ++ winner_name names.now iface }
    ensures len { length line.new ≤ length line.old + 15 }
{
    match names.name(iface) {
        Some(name) => line.push_all(name.as_bytes()),
        None => line.push(b'?'),
    }
}

/// Appends the text of the frame, or an error message frame if the frame was destroyed or not acknowledged.
fn push_text(line: &mut LogLine, tried: &Tried)
    requires { length line.old + 139 ≤ 192 }
    ensures text { line.new ≡ line.old ++ tried_text tried.now.class tried.now.frame }
    ensures len { length line.new ≤ length line.old + 139 }
{
    match tried.class {
        Class::Done | Class::LastBit => {
            line.push_all(frame_text(&Item::Data(tried.frame)).as_bytes());
        }
        Class::Destroyed => line.push_all(b"20000080#0000000000000000"),
        Class::NoAck => line.push_all(b"200000A0#0000000000000000"),
    }
}
