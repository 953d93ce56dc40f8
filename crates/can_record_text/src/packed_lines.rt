ghost use Rattle.std.specs.Prelude.{◌≡◌, [], IsTrue};
ghost use Rattle.can_record_text.specs.inner.StoredLines.{IsPackedLine};

use crate::entry_lines::{
    push_attempt, push_data, push_error_from, push_idle, push_outcome, push_receive, push_send,
    push_sent, push_winner,
};
use crate::line_words::{LineText, push_error, push_moment, push_packed};
use can_record::PackedEntry;

/// Appends the line of a packed entry of a common kind, and returns true. For any other kind it returns false, and the
/// contents of `line` are meaningless. It reads the packed fields directly, because building a frame, an event or a reply
/// would take longer than writing the line.
pub(crate) fn push_entry(line: &mut LineText, kept: &PackedEntry) -> bool
    requires { line.old ≡ [] }
    ensures { IsTrue result → IsPackedLine line.new kept.now }
{
    match kept {
        PackedEntry::NothingReceived { socket } => {
            push_receive(line, *socket);
            line.push_all(b"= none\n");
            true
        }
        PackedEntry::FrameReceived {
            from,
            len,
            socket,
            word,
            number,
            bytes,
            moment,
        } => {
            if word.is_remote() {
                return false;
            }
            push_receive(line, *socket);
            push_data(line, *from, u64::from(*number));
            push_packed(line, *word, *len, bytes);
            push_moment(line, *moment, b'\n');
            true
        }
        PackedEntry::ErrorReceived {
            from,
            socket,
            error,
            moment,
            ..
        } => {
            push_receive(line, *socket);
            push_error_from(line, *from);
            push_error(line, *error);
            push_moment(line, *moment, b'\n');
            true
        }
        PackedEntry::Sent {
            len,
            socket,
            word,
            number,
            bytes,
        } => {
            if word.is_remote() {
                return false;
            }
            push_send(line, *socket);
            push_packed(line, *word, *len, bytes);
            push_sent(line, u64::from(*number));
            true
        }
        kept => push_entry_attempt(line, kept),
    }
}

/// Appends the line of a packed attempt and returns true, or returns false for any other entry, as `push_entry` does.
fn push_entry_attempt(line: &mut LineText, kept: &PackedEntry) -> bool
    requires { line.old ≡ [] }
    ensures { IsTrue result → IsPackedLine line.new kept.now }
{
    match kept {
        PackedEntry::Idle {
            restarted,
            verdict,
            moment,
        } => {
            push_attempt(line, *moment, *verdict);
            push_idle(line, *restarted);
            true
        }
        PackedEntry::Tried {
            end,
            named,
            word,
            number,
            accepted,
            restarted,
            bytes,
            stamp,
        } => {
            if word.is_remote() {
                return false;
            }
            push_attempt(line, stamp.moment(), end.verdict(*named));
            push_winner(line, stamp.winner(), u64::from(*number));
            push_packed(line, *word, stamp.len(), bytes);
            push_outcome(line, end.class(), *accepted, stamp.off(), *restarted);
            true
        }
        _ => false,
    }
}
