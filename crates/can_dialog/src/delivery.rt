ghost use Rattle.std.specs.Prelude.{◌≡◌, ◌≢◌, [], IsTrue, false};
ghost use Rattle.can_proto.specs.Spelling.{answer_text};
ghost use Rattle.can_proto.specs.declared.answer.Answer.TheVariants.{Refused};
ghost use Rattle.can_dialog.specs.Sessions.{Wrote};
ghost use Rattle.can_dialog.specs.Deliveries.{ReceivesInto, delivery_text, is_item};
ghost use Rattle.can_dialog.specs.Turns.{origin_of};
ghost use Rattle.can_dialog.specs.declared.delivery.Delivery.TheVariants.{ItemFrom};

use crate::output::put;
use crate::port::Port;
use crate::stage::Stage;
use can_event::Received;
use can_proto::{Cause, ItemText, Origin, push_item, push_item_from, refusal_text};
use std::io::Write;

/// The result of one receive for a client. A received item is in a buffer of the caller.
#[derive(Debug, Clone, Copy, PartialEq, Eq)]
pub enum Delivery {
    /// The socket had no item.
    Nothing,
    /// The buffer holds an item. The flag is true if the text contains the data of an error message frame.
    Item(bool),
    /// The buffer holds an item whose text includes its origin. `is_same` is true if the socket's own interface sent the frame.
    ItemFrom { errdata: bool, is_same: bool },
    /// The port refused the receive.
    Refused(Cause),
}

impl Delivery {
    /// Returns whether the delivery is an item.
    pub fn is_item(self) -> bool
        ensures { result ≡ is_item self }
    {
        matches!(self, Delivery::Item(_) | Delivery::ItemFrom { .. })
    }

    /// Writes the text of the delivery in one call if it has a text. Returns false if the writer failed.
    pub fn write<W: Write>(self, room: &Received, out: &mut W) -> bool
        ensures wrote { IsTrue result →
            Wrote W.contents out.old (delivery_text self room.now) out.new }
        ensures some { result ≡ false → delivery_text self room.now ≢ [] }
    {
        match self {
            Delivery::Nothing => true,
            Delivery::Item(errdata) => {
                let mut text = ItemText::new();
                push_item(&mut text, &room.item, room.moment, errdata);
                put(out, text.as_bytes())
            }
            Delivery::ItemFrom { errdata, is_same } => write_from(room, errdata, is_same, out),
            Delivery::Refused(cause) => write_refusal(cause, out),
        }
    }
}

/// Returns the origin of the frame with this number.
fn origin_of(is_same: bool, number: u64) -> Origin
    ensures { result ≡ origin_of is_same number }
{
    if is_same {
        Origin::Same(number)
    } else {
        Origin::Other(number)
    }
}

/// Writes the text of an item with its origin. Returns false if the writer failed.
#[inline(never)]
fn write_from<W: Write>(room: &Received, errdata: bool, is_same: bool, out: &mut W) -> bool
    ensures wrote { IsTrue result →
        Wrote W.contents out.old (delivery_text (ItemFrom errdata is_same) room.now) out.new }
    ensures some { result ≡ false → delivery_text (ItemFrom errdata is_same) room.now ≢ [] }
{
    let mut text = ItemText::new();
    push_item_from(
        &mut text,
        &room.item,
        room.moment,
        errdata,
        origin_of(is_same, room.number),
    );
    put(out, text.as_bytes())
}

/// Writes the text of a refusal. Returns false if the writer failed.
#[inline(never)]
fn write_refusal<W: Write>(cause: Cause, out: &mut W) -> bool
    ensures wrote { IsTrue result → Wrote W.contents out.old (answer_text (Refused cause)) out.new }
    ensures some { result ≡ false → answer_text (Refused cause) ≢ [] }
{
    let text = refusal_text(cause);
    put(out, text.as_bytes())
}

/// Receives one item into the buffer in raw mode, and makes no call in other modes. Returns the result to report to the client.
pub fn take_delivery<P: Port>(stage: Stage, port: &mut P, room: &mut Received) -> Delivery
    ensures { ReceivesInto P.step stage port.old port.new result room.new }
{
    let Stage::Raw(raw) = stage else {
        return Delivery::Nothing;
    };
    match port.receive_into(raw.socket, room) {
        Ok(true) if raw.origins => Delivery::ItemFrom {
            errdata: raw.errdata,
            is_same: room.from == raw.iface,
        },
        Ok(true) => Delivery::Item(raw.errdata),
        Ok(false) => Delivery::Nothing,
        Err(refusal) => Delivery::Refused(refusal.cause()),
    }
}
