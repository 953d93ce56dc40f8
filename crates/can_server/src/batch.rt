//! The output to a client. It is prepared under the lock of the bus and written after the lock is released.
ghost use Rattle.std.specs.Prelude.{◌≡◌, ◌+◌, ◌++◌, ◌<◌, ◌≤◌, [], length, take, drop, min, vec_len, IsTrue, false, true, OnOk, IfOk};
ghost use Rattle.std.specs.Io.KnownBytes.{Appends};
ghost use Rattle.can_proto.specs.Messages.{messages_of, kept_of};
ghost use Rattle.can_dialog.specs.Sessions.{TakesTurns, Wrote};
ghost use Rattle.can_dialog.specs.Deliveries.{GivesItems};
ghost use Rattle.can_server.specs.Batches.{texts_of};

use can_bus::Received;
use can_dialog::{Delivery, Port, Session, SessionFault};
use can_frame::Moment;
use std::alloc::{AllocError, Global};
use std::io::Write;

/// The largest number of items in a batch.
const MOST_ITEMS: usize = 256;

/// The largest number of bytes in the string for an item.
const LONGEST: usize = 256;

/// The result of receiving a batch of items.
#[derive(Debug, Clone, Copy, PartialEq, Eq)]
pub struct Taken {
    /// The number of buffers that contain the result of a receive.
    pub rooms: usize,
    /// Whether every receive returned an item, up to the requested number or the size of a batch. If so, more items may be waiting.
    pub are_items: bool,
}

/// A buffer for one receive, and the result of that receive.
#[derive(Debug, Clone, Copy)]
struct Room {
    item: Received,
    delivery: Delivery,
}

impl Room {
    fn empty() -> Room {
        Room {
            item: Received::nothing(),
            delivery: Delivery::Nothing,
        }
    }
}

/// The output that a client receives in one write. It is prepared first and written later. A batch reuses its memory.
#[derive(Drop)]
pub struct Batch {
    rooms: Vec<Room>,
    /// The output of one write.
    text: Vec<u8>,
    /// The largest number of bytes in `text`. It may be exceeded by a single item, because an item is never cut.
    most_bytes: usize,
    ghost all_rooms: { vec_len rooms ≡ 256 },
}

impl Batch {
    /// Returns a batch that writes at most this many bytes at once. A longer item is still written in one piece.
    pub fn new(alloc: Global, most_bytes: usize) -> Result<Batch, AllocError> {
        let text = Vec::with_capacity(alloc, most_bytes.saturating_add(LONGEST))?;
        let rooms = rooms_of(alloc, Room::empty())?;
        Ok(Batch {
            rooms,
            text,
            most_bytes,
        })
    }

    /// Passes a piece of the client's input to the session. The batch then contains only the session's replies, which `write`
    /// writes. Refusals: those of `Session::feed`.
    pub fn hear<P: Port>(
        &mut self,
        session: &mut Session,
        alloc: Global,
        piece: &[u8],
        moment: Moment,
        port: &mut P,
    ) -> Result<(), SessionFault>
        ensures said { OnOk result (TakesTurns P.step moment session.old.dialog
            (messages_of (session.old.kept ++ piece.now))
            port.old port.new self.new.text.items session.new.dialog) }
        ensures keeps { OnOk result (session.new.kept ≡ kept_of (session.old.kept ++ piece.now)) }
    {
        self.text.clear();
        session.feed(alloc, piece, moment, port, &mut self.text)
    }

    /// Returns the number of bytes that are waiting to be written.
    pub fn waiting(&self) -> usize
        ensures { result ≡ length self.now.text.items }
    {
        self.text.len()
    }

    /// Writes the waiting bytes. Returns whether the writer accepted them.
    pub fn write<W: Write>(&mut self, out: &mut W) -> bool
        ensures wrote { IsTrue result → Wrote W.contents out.old self.old.text.items out.new }
    {
        write_out(&mut self.text, out)
    }

    /// Receives up to `waiting` items for the session's client, but at most 256. Each receive has its own buffer. The first receive
    /// that returns no item is the last one.
    pub fn take<P: Port>(&mut self, session: &Session, waiting: u64, port: &mut P) -> Taken
        ensures within { result.rooms ≤ 256 }
        ensures all { result.are_items ≡ true → result.rooms ≡ min waiting 256 }
        ensures takes { GivesItems P.step (min waiting 256) session.now.dialog.stage port.old
            (texts_of (take result.rooms self.new.rooms.items)) port.new result.are_items }
    {
        let most = waiting.min(MOST_ITEMS as u64) as usize;
        let items = receive(session, port, self.rooms.as_mut_slice(), most);
        Taken {
            rooms: most.min(items + 1),
            are_items: items == most,
        }
    }

    /// Writes the received items in order. Returns whether the writer accepted them.
    pub fn write_items<W: Write>(&mut self, taken: Taken, out: &mut W) -> bool
        requires { taken.rooms ≤ 256 }
        ensures wrote { IsTrue result → Appends (W.contents out.old) (W.contents out.new)
            (texts_of (take taken.rooms self.old.rooms.items)) }
    {
        write_texts(
            &self.rooms[..taken.rooms],
            &mut self.text,
            self.most_bytes,
            out,
        )
    }
}

/// Returns 256 copies of a buffer, one for each item of a batch.
fn rooms_of<T: Copy>(alloc: Global, room: T) -> Result<Vec<T>, AllocError>
    ensures { IfOk result (λ v. vec_len v ≡ 256) }
{
    Vec::from_elem(alloc, room, MOST_ITEMS)
}

/// Receives up to `most` items, each into its own buffer, and stops at the first receive that returns no item. Returns the number
/// of items.
fn receive<P: Port>(session: &Session, port: &mut P, rooms: &mut [Room], most: usize) -> usize
    requires { most ≤ length rooms.old }
    ensures within { result ≤ most }
    ensures all { result ≡ most →
        GivesItems P.step most session.now.dialog.stage port.old
        (texts_of (take most rooms.new)) port.new true }
    ensures few { result < most → GivesItems P.step most session.now.dialog.stage port.old
        (texts_of (take (result + 1) rooms.new)) port.new false }
{
    for place in 0..most {
        let room = &mut rooms[place];
        room.delivery = session.take(port, &mut room.item);
        if !room.delivery.is_item() {
            return place;
        }
    }
    most
}

/// Writes the items, with at most `most_bytes` bytes in one write unless an item is longer. Returns whether the writer accepted
/// them. The output buffer is emptied first, and is empty after a success.
fn write_texts<W: Write>(rooms: &[Room], text: &mut Vec<u8>, most_bytes: usize, out: &mut W) -> bool
    ensures wrote { IsTrue result →
        Appends (W.contents out.old) (W.contents out.new) (texts_of rooms.now) }
{
    text.clear();
    for room in rooms {
        let before = text.len();
        if !room.delivery.write(&room.item, text) {
            return false;
        }
        if text.len() > most_bytes && !write_front(text, before, out) {
            return false;
        }
    }
    write_out(text, out)
}

/// Writes the first `len` bytes of the buffer and keeps the rest. Returns whether the writer accepted them.
#[inline(never)]
fn write_front<W: Write>(text: &mut Vec<u8>, len: usize, out: &mut W) -> bool
    requires { len ≤ length text.old.items }
    ensures wrote { IsTrue result → Wrote W.contents out.old (take len text.old.items) out.new }
    ensures rest { IsTrue result → text.new.items ≡ drop len text.old.items }
{
    let is_taken = len == 0 || out.write_all(&text[..len]).is_ok();
    if !is_taken {
        return false;
    }
    let rest = text.len() - len;
    text.copy_within(len.., 0);
    text.truncate(rest);
    true
}

/// Writes the contents of the buffer, if there are any, and empties it. Returns whether the writer accepted them.
fn write_out<W: Write>(text: &mut Vec<u8>, out: &mut W) -> bool
    ensures wrote { IsTrue result → Wrote W.contents out.old text.old.items out.new }
    ensures empty { text.new.items ≡ [] }
{
    let is_taken = text.is_empty() || out.write_all(text).is_ok();
    text.clear();
    is_taken
}
