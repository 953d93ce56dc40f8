ghost use Rattle.std.specs.Prelude.{◌≡◌, ◌≤◌, ◌+◌, ◌++◌, ◌↔◌, length, IsTrue, IsErr, IfOk, IfSome, Ok, Err, Some, true};
ghost use Rattle.can_frame.specs.FrameText.{payload_text, frame_spelling, AsksForNothing, is_plain, IsItem, IsSpelling, Spells};
ghost use Rattle.can_frame.specs.declared.item.Item.{Item as AnItem};

use crate::frame::Frame;
use crate::frame_guess::guess_item;
use crate::item::Item;
use crate::text::Text;
use thiserror::Error;

/// The text spells no item.
#[derive(Debug, Clone, Copy, PartialEq, Eq, Error)]
#[error("bad text")]
pub struct BadText;

/// The text of an item. The longest text has 139 bytes: 8 digits, `##0` and 128 digits.
pub type FrameText = Text<144>;

/// Writes an item in the format of candump's logs, in upper case, for example `123#1122`, `12345678#` or `123#R4`. An FD frame is
/// written `123##01122`; the digit after the second `#` holds the flags (BRS is 1, ESI is 2). An error message frame of class 0x80
/// is written `20000080#0000000000000000`. This function allocates nothing.
#[tactic(auto, unfolding(crate::specs::FrameText::frame_spelling))]
pub fn frame_text(item: &Item) -> FrameText
    ensures text { result ≡ frame_spelling item.now }
    ensures short { length result ≤ 139 }
{
    let mut text = Text::new();
    match item {
        Item::Data(frame) => {
            text.push_id(frame.id());
            text.push(b'#');
            push_payload(&mut text, *frame);
        }
        Item::Error(error) => {
            text.push_hex(8, 0x2000_0000 + u64::from(error.class()));
            text.push(b'#');
            text.push_pairs(&error.data());
        }
    }
    text
}

/// Appends the payload of a frame: the data, or `R` and the requested length, or a second `#`, the flags and the data of an FD
/// frame.
fn push_payload(text: &mut FrameText, frame: Frame)
    requires { length text.old + 130 ≤ 144 }
    ensures text { text.new ≡ text.old ++ payload_text frame.payload }
    ensures len { length text.new ≤ length text.old + 130 }
{
    let len = frame.len();
    if frame.is_remote() {
        text.push(b'R');
        if len > 0 {
            text.push(b'0' + len);
        }
        return;
    }
    if frame.is_fd() {
        text.push(b'#');
        text.push(b'0' + frame.flags().number());
    }
    text.push_pairs(frame.bytes());
}

/// Reads an item without flags from a text in either case. Returns `BadText` if the text spells no such item. `ID#R0` is read as
/// `ID#R`.
///
/// It is meant for callers that do not know the flags of FD frames: an FD frame has to be `ID##0DATA`, and every other digit is
/// refused. `read_flagged_frame_text` reads all items.
pub fn read_frame_text(text: &str) -> Result<Item, BadText>
    ensures found { IfOk result (λ item. IsItem item × Spells text.now item) }
    ensures plain { IfOk result (λ item. is_plain item ≡ true) }
    ensures only { (i : AnItem) → IsItem i → is_plain i ≡ true → Spells text.now i → result ≡ Ok i }
    ensures bad { IsErr result ↔
        ((i : AnItem) → IsItem i → is_plain i ≡ true → Spells text.now i → ⊥) }
{
    let item = read_flagged_frame_text(text)?;
    if is_plain(&item) {
        Ok(item)
    } else {
        Err(BadText)
    }
}

/// Whether an item has no flag. Only an FD frame can have one.
fn is_plain(item: &Item) -> bool
    ensures { result ≡ is_plain item.now }
{
    match item {
        Item::Data(frame) => !frame.is_flagged(),
        Item::Error(_) => true,
    }
}

/// Reads an item from a text in either case; `123##1` is an FD frame with BRS. Returns `BadText` if the text spells no item.
/// `ID#R0` is read as `ID#R`.
///
/// The function guesses the item, writes it again and compares the result with the text. A text of more than 144 bytes is refused
/// without being read, so the cost is bounded. It allocates nothing.
pub fn read_flagged_frame_text(text: &str) -> Result<Item, BadText>
    ensures found { IfOk result (λ item. IsItem item × Spells text.now item) }
    ensures only { (i : AnItem) → IsItem i → Spells text.now i → result ≡ Ok i }
    ensures bad { IsErr result ↔ ((i : AnItem) → IsItem i → Spells text.now i → ⊥) }
{
    if text.len() > 144 {
        return Err(BadText);
    }
    let mut raised: FrameText = Text::new();
    raised.push_upper(text.as_bytes());
    read_upper(raised.as_bytes()).ok_or(BadText)
}

/// Reads an item from an upper-case text.
fn read_upper(text: &[u8]) -> Option<Item>
    ensures found { IfSome result (λ item. IsItem item × IsSpelling text.now item) }
    ensures only { (i : AnItem) → IsItem i → IsSpelling text.now i → result ≡ Some i }
{
    let item = guess_item(text)?;
    if spells(text, &item) {
        Some(item)
    } else {
        None
    }
}

/// Whether an upper-case text is the written form of the item. A remote frame of length 0 may also have the digit 0 after its `R`.
fn spells(text: &[u8], item: &Item) -> bool
    ensures { IsTrue result ↔ IsSpelling text.now item.now }
{
    let mut written = frame_text(item);
    if text == written.as_bytes() {
        return true;
    }
    if !asks_for_nothing(item) {
        return false;
    }
    written.push(b'0');
    text == written.as_bytes()
}

/// Whether an item is a remote frame of length 0. The text of such a frame may have or omit the length.
fn asks_for_nothing(item: &Item) -> bool
    ensures { IsTrue result ↔ AsksForNothing item.now }
{
    match item {
        Item::Data(frame) => frame.is_remote() && frame.len() == 0,
        Item::Error(_) => false,
    }
}
