ghost use Rattle.std.specs.Prelude.{◌≡◌, ◌≢◌, ◌+◌, ◌*◌, ◌≤◌, ◌++◌, [], List, ℕ, length, vec_capacity, IsTrue, false, OnOk, OnErr, IfOk};
ghost use Rattle.can_proto.specs.Spelling.{answer_text, interfaces_text};
ghost use Rattle.can_dialog.specs.Calls.Call.{Names};
ghost use Rattle.can_dialog.specs.Sessions.{messages_begun, ReportsNames, Wrote};

use crate::port::Port;
use can_frame::count_of;
use can_proto::{Answer, Cause, reply_text};
use std::alloc::{AllocError, Global};
use std::io::Write;

/// The largest number of bytes in a reply. The reply with the names of the interfaces may be longer.
const LONGEST: usize = 256;

/// Clears the text and reserves capacity for the replies to all messages that may end in this piece: those that begin in the piece,
/// and one that began before it.
pub fn make_room(said: &mut Vec<u8>, piece: &[u8]) -> Result<(), AllocError>
    ensures empty { said.new.items ≡ [] }
    ensures room { OnOk result ((messages_begun piece.now + 1) * 256 ≤ vec_capacity said.new) }
{
    said.clear();
    let room = count_of(piece, b'<')
        .saturating_add(1)
        .saturating_mul(LONGEST);
    said.reserve(room)
}

/// Appends the text of a reply. The text must have enough capacity.
pub fn say(said: &mut Vec<u8>, answer: Answer)
    requires { length said.old.items + 256 ≤ vec_capacity said.old }
    ensures text { said.new.items ≡ said.old.items ++ answer_text answer }
    ensures len { length said.new.items ≤ length said.old.items + 256 }
    ensures room { vec_capacity said.old ≤ vec_capacity said.new }
{
    let text = reply_text(answer);
    match said.extend_from_slice(text.as_bytes()) {
        Ok(()) => {}
        Err(_) => unreachable!(),
    }
}

/// Appends the names of the port's interfaces, and leaves enough capacity for `left` further replies. If an allocation fails, it
/// appends the refusal `no memory` instead.
pub fn say_names<P: Port>(said: &mut Vec<u8>, alloc: Global, port: &P, left: usize)
    requires { length said.old.items + (left + 1) * 256 ≤ vec_capacity said.old }
    ensures names { (text : List ℕ) × ReportsNames P.step port.now text
        × (said.new.items ≡ said.old.items ++ text) }
    ensures room { length said.new.items + left * 256 ≤ vec_capacity said.new }
{
    if add_names(said, alloc, port, left).is_err() {
        say(said, Answer::Refused(Cause::NoMemory));
    }
}

/// Appends the names of the port's interfaces, and reserves capacity for `left` further replies.
fn add_names<P: Port>(
    said: &mut Vec<u8>,
    alloc: Global,
    port: &P,
    left: usize,
) -> Result<(), AllocError>
    ensures names { OnOk result ((names : List (List ℕ)) × P.step port.now Names names port.now
        × (said.new.items ≡ said.old.items ++ interfaces_text names)) }
    ensures room { OnOk result (length said.new.items + left * 256 ≤ vec_capacity said.new) }
    ensures same { OnErr result (said.new.items ≡ said.old.items) }
    ensures capacity { vec_capacity said.old ≤ vec_capacity said.new }
{
    let text = names_text(alloc, port)?;
    said.reserve(left.saturating_mul(LONGEST).saturating_add(text.len()))?;
    said.extend_from_slice(&text)
}

/// Returns the reply with the names of the port's interfaces.
fn names_text<P: Port>(alloc: Global, port: &P) -> Result<Vec<u8>, AllocError>
    ensures { IfOk result (λ text. (names : List (List ℕ)) × P.step port.now Names names port.now
        × (text.items ≡ interfaces_text names)) }
{
    let mut text = Vec::new(alloc);
    text.extend_from_slice(b"< interfaces")?;
    port.put_names(&mut text)?;
    text.extend_from_slice(b" >")?;
    Ok(text)
}

/// Writes a text in one call, or makes no call if the text is empty. Returns false if the writer failed.
pub fn put<W: Write>(out: &mut W, text: &[u8]) -> bool
    ensures wrote { IsTrue result → Wrote W.contents out.old text.now out.new }
    ensures some { result ≡ false → text.now ≢ [] }
{
    text.is_empty() || out.write_all(text).is_ok()
}
