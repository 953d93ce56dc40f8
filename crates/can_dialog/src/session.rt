ghost use Rattle.std.specs.Prelude.{◌≡◌, ◌≢◌, ◌⊎◌, ◌+◌, ◌*◌, ◌≤◌, ◌++◌, ◌↔◌, [], length, vec_capacity, IfOk, OnOk, OnErr};
ghost use Rattle.can_proto.specs.Messages.{messages_of, kept_of};
ghost use Rattle.can_dialog.specs.Turns.{greeting};
ghost use Rattle.can_dialog.specs.Sessions.{IsSessionOver, beginning, ended_session, IsNotRaw, TakesTurns, Finishes, Says, Cut, Wrote, SendsFrame, SendCut, Delivers, DeliveryCut};
ghost use Rattle.can_dialog.specs.Deliveries.{ReceivesInto};

use crate::commands::send;
use crate::delivery::{Delivery, take_delivery};
use crate::dialog::{finish, take_turn};
use crate::output::{make_room, put};
use crate::port::Port;
use crate::stage::{Dialog, RawSocket, Stage};
use can_event::Received;
use can_frame::{Frame, Moment};
use can_proto::{Answer, Incoming, Reader, reply_text};
use std::alloc::{AllocError, Global};
use std::io::Write;
use std::marker::Model;
use thiserror::Error;

/// Why a session did not complete a call.
#[derive(Debug, Clone, Copy, PartialEq, Eq, Error)]
pub enum SessionFault {
    /// The session had ended before the call. Nothing was done.
    #[error("session ended")]
    Ended,
    /// An allocation failed. Nothing was read from the piece.
    #[error("no memory")]
    NoMemory,
    /// The writer failed. The raw socket was closed if there was one, and the session has ended.
    #[error("write fault")]
    Write,
}

/// A session over any port. It reads a client's stream in pieces, and writes the texts for the client.
///
/// Between calls it stores the text of an incomplete message, the capacity of its socket, and its stage. It writes all texts of a
/// call in a single `write_all`.
#[derive(Drop)]
pub struct Session {
    reader: Reader,
    dialog: Dialog,
    said: Vec<u8>,
    room: Received,
}

impl Model for Session {
    ghost use Rattle.std.specs.Prelude.{◌≤◌};
    ghost use Rattle.can_dialog.specs.Sessions.{SessionState, messages_begun};

    ghost Value = { SessionState };

    ghost view = { λ s. record { kept = s.reader; dialog = s.dialog } };

    ghost invariant = { λ s. messages_begun s.reader ≤ 1 };
}

/// Takes the turns for these items in order, and appends their texts to `said`, which must have enough capacity.
fn take_turns<P: Port>(
    dialog: &mut Dialog,
    alloc: Global,
    items: &[Incoming],
    moment: Moment,
    port: &mut P,
    said: &mut Vec<u8>,
)
    requires empty { said.old.items ≡ [] }
    requires room { length items.now * 256 ≤ vec_capacity said.old }
    ensures { TakesTurns P.step moment dialog.old items.now
        port.old port.new said.new.items dialog.new }
{
    let mut left = items.len();
    for item in items {
        left -= 1;
        take_turn(dialog, alloc, item, moment, port, said, left);
    }
}

impl Session {
    /// Returns a session that has just begun. Its socket will hold up to `capacity` items. The memory of the reader is allocated
    /// here.
    pub fn new(alloc: Global, capacity: u32) -> Result<Session, AllocError>
        ensures { IfOk result (λ s. s ≡ beginning capacity) }
    {
        Ok(Session {
            reader: Reader::new(alloc)?,
            dialog: Dialog {
                capacity,
                stage: Stage::NoBus,
            },
            said: Vec::new(alloc),
            room: Received::nothing(),
        })
    }

    /// Returns the current stage of the session.
    pub fn stage(&self) -> Stage
        ensures { result ≡ self.now.dialog.stage }
    {
        self.dialog.stage
    }

    /// Writes the first text of a session. It must not be called in raw mode, because a frame may already have been written then.
    ///
    /// Refusals: `Ended`, `Write`.
    pub fn greet<W: Write>(&mut self, out: &mut W) -> Result<(), SessionFault>
        requires { IsNotRaw self.old.dialog.stage }
        ensures said { OnOk result (Wrote W.contents out.old greeting out.new
            × (self.new ≡ self.old)) }
        ensures ended { (result ≡ Err SessionFault.Ended) ↔ IsSessionOver self.old }
        ensures nothing { result ≡ Err SessionFault.Ended →
            (self.new ≡ self.old) × (out.new ≡ out.old) }
        ensures memory { result ≢ Err SessionFault.NoMemory }
        ensures cut { result ≡ Err SessionFault.Write → self.new ≡ ended_session self.old }
    {
        if let Stage::Ended = self.dialog.stage {
            return Err(SessionFault::Ended);
        }
        let text = reply_text(Answer::Greeting);
        if !put(out, text.as_bytes()) {
            self.dialog.stage = Stage::Ended;
            return Err(SessionFault::Write);
        }
        Ok(())
    }

    /// Takes the next piece of the client's stream, and carries out the messages that end in the piece, in order. It writes all
    /// their texts in a single `write_all`, or nothing if there is no text. If an interface is restarted or taken down, this
    /// happens at `moment`.
    ///
    /// Refusals, in order of precedence: `Ended`; `NoMemory`, before anything in the piece was read; `Write`, after the messages of
    /// the piece were carried out. If an allocation fails while a command is read, or in the port, the client gets a refusal and
    /// the session continues.
    ///
    /// The running time grows linearly with the length of the piece. The session allocates 256 bytes, another 256 bytes for each
    /// `<` in the piece, and the memory for the names of `interfaces`. It keeps this memory for the next call.
    pub fn feed<P: Port, W: Write>(
        &mut self,
        alloc: Global,
        piece: &[u8],
        moment: Moment,
        port: &mut P,
        out: &mut W,
    ) -> Result<(), SessionFault>
        ensures said { OnOk result (Says P.step W.contents moment self.old.dialog
            (messages_of (self.old.kept ++ piece.now))
            port.old port.new out.old out.new self.new.dialog) }
        ensures keeps { OnOk result (self.new.kept ≡ kept_of (self.old.kept ++ piece.now)) }
        ensures ended { (result ≡ Err SessionFault.Ended) ↔ IsSessionOver self.old }
        ensures nothing { (result ≡ Err SessionFault.Ended) ⊎ (result ≡ Err SessionFault.NoMemory) →
            (self.new ≡ self.old) × (port.new ≡ port.old) × (out.new ≡ out.old) }
        ensures cut { result ≡ Err SessionFault.Write → Cut P.step moment self.old.dialog
            (messages_of (self.old.kept ++ piece.now)) port.old port.new self.new.dialog }
    {
        if let Stage::Ended = self.dialog.stage {
            return Err(SessionFault::Ended);
        }
        if let Stage::Raw(raw) = self.dialog.stage {
            if let Some(frame) = self.reader.lone_send(piece) {
                return self.pass_on(raw, frame, port, out);
            }
        }
        if make_room(&mut self.said, piece).is_err() {
            return Err(SessionFault::NoMemory);
        }
        let Ok(items) = self.reader.feed(alloc, piece) else {
            return Err(SessionFault::NoMemory);
        };
        take_turns(
            &mut self.dialog,
            alloc,
            &items,
            moment,
            port,
            &mut self.said,
        );
        if !put(out, &self.said) {
            finish(&mut self.dialog, port);
            return Err(SessionFault::Write);
        }
        Ok(())
    }

    /// Sends a frame and writes the reply for the client if there is one.
    fn pass_on<P: Port, W: Write>(
        &mut self,
        raw: RawSocket,
        frame: Frame,
        port: &mut P,
        out: &mut W,
    ) -> Result<(), SessionFault>
        ensures said { OnOk result (SendsFrame P.step W.contents self.old.dialog raw frame
            port.old port.new out.old out.new self.new.dialog) }
        ensures keeps { OnOk result (self.new.kept ≡ self.old.kept) }
        ensures faults { OnErr result (result ≡ Err SessionFault.Write) }
        ensures cut { result ≡ Err SessionFault.Write →
            SendCut P.step self.old.dialog raw frame port.old port.new self.new.dialog }
    {
        let Some(answer) = send(self.dialog, raw, frame, port) else {
            return Ok(());
        };
        let text = reply_text(answer);
        if !put(out, text.as_bytes()) {
            finish(&mut self.dialog, port);
            return Err(SessionFault::Write);
        }
        Ok(())
    }

    /// Takes one item from the socket and writes its text. Returns whether there was an item. Outside raw mode it makes no call and
    /// returns false. If the port refuses, the refusal is written for the client, and the result is false. Only the port and the
    /// writer may allocate memory.
    ///
    /// Refusals: `Ended`; `Write`, in which case the item is lost.
    pub fn deliver<P: Port, W: Write>(
        &mut self,
        port: &mut P,
        out: &mut W,
    ) -> Result<bool, SessionFault>
        ensures said { IfOk result (λ more. Delivers P.step W.contents self.old.dialog.stage
            port.old port.new out.old out.new more) }
        ensures same { OnOk result (self.new ≡ self.old) }
        ensures ended { (result ≡ Err SessionFault.Ended) ↔ IsSessionOver self.old }
        ensures nothing { result ≡ Err SessionFault.Ended →
            (self.new ≡ self.old) × (port.new ≡ port.old) × (out.new ≡ out.old) }
        ensures memory { result ≢ Err SessionFault.NoMemory }
        ensures cut { result ≡ Err SessionFault.Write →
            DeliveryCut P.step self.old.dialog port.old port.new self.new.dialog }
        ensures keeps { result ≡ Err SessionFault.Write → self.new.kept ≡ self.old.kept }
    {
        if let Stage::Ended = self.dialog.stage {
            return Err(SessionFault::Ended);
        }
        let delivery = take_delivery(self.dialog.stage, port, &mut self.room);
        if !delivery.write(&self.room, out) {
            finish(&mut self.dialog, port);
            return Err(SessionFault::Write);
        }
        Ok(delivery.is_item())
    }

    /// Receives one item into the buffer, like `deliver`, but returns the result for the client without writing it. The caller must
    /// write the text of the result before the session does anything else. Outside raw mode it makes no call.
    pub fn take<P: Port>(&self, port: &mut P, room: &mut Received) -> Delivery
        ensures { ReceivesInto P.step self.now.dialog.stage port.old port.new result room.new }
    {
        take_delivery(self.dialog.stage, port, room)
    }

    /// Ends the session and closes its raw socket if there is one. Even if the port refuses to close the socket, the session ends.
    /// Refusal: `Ended`.
    pub fn end<P: Port>(&mut self, port: &mut P) -> Result<(), SessionFault>
        ensures done { OnOk result
            (Finishes P.step self.old.dialog port.old port.new self.new.dialog) }
        ensures keeps { OnOk result (self.new.kept ≡ self.old.kept) }
        ensures ended { (result ≡ Err SessionFault.Ended) ↔ IsSessionOver self.old }
        ensures nothing { result ≡ Err SessionFault.Ended →
            (self.new ≡ self.old) × (port.new ≡ port.old) }
        ensures faults { OnErr result (result ≡ Err SessionFault.Ended) }
    {
        if let Stage::Ended = self.dialog.stage {
            return Err(SessionFault::Ended);
        }
        finish(&mut self.dialog, port);
        Ok(())
    }
}
