ghost use Rattle.std.specs.Prelude.{◌≡◌, ◌<◌, ◌≤◌, length, IsTrue, IfSome, Some};
ghost use Rattle.std.specs.Option.{option_map};
ghost use Rattle.can_frame.specs.Frames.Payload.{Data, Remote, Fd};
ghost use Rattle.can_frame.specs.FrameGuess.{has_byte_at, request_in, data_in, fd_data_in, flags_in, fd_in, payload_in, frame_in, error_in, standard_in, long_in, short_item_in, long_item_in, item_in};
ghost use Rattle.can_frame.specs.FrameText.{IsItem, IsSpelling};
ghost use Rattle.can_frame.specs.declared.item.Item.{Item as AnItem};

use crate::can_id::CanId;
use crate::error_frame::ErrorFrame;
use crate::fd_flags::FdFlags;
use crate::frame::{Frame, is_fd_length};
use crate::item::Item;
use crate::numbers::read_hexadecimal;
use hex::decode_to_slice;

/// Guesses the item that an upper-case text spells. If the text spells an item, the guess is that item. A malformed text may also
/// give a guess, for example a text with a lower-case digit in a number.
///
/// The caller has to write the item again and compare it with the text. A caller that reads many items may write and compare them
/// all at once. If the two are equal, the text spells the item; if they differ, or the guess is `None`, the text spells no item. To
/// read a single text, in either case, use `read_frame_text`. This function allocates nothing.
pub fn guess_item(text: &[u8]) -> Option<Item>
    ensures guess { result ≡ item_in text.now }
    ensures good { IfSome result IsItem }
    ensures only { (i : AnItem) → IsItem i → IsSpelling text.now i → result ≡ Some i }
{
    by_mark(text)
}

/// Guesses the item of a text with `#` after 3 or 8 digits.
#[tactic(auto, unfolding(crate::specs::FrameGuess::item_in))]
fn by_mark(text: &[u8]) -> Option<Item>
    ensures { result ≡ item_in text.now }
{
    if has_byte_at(b'#', 3, text) {
        return with_three(text);
    }
    if has_byte_at(b'#', 8, text) {
        return with_eight(text);
    }
    None
}

/// Whether the text has the byte `mark` at this place.
fn has_byte_at(mark: u8, place: usize, text: &[u8]) -> bool
    ensures test { result ≡ has_byte_at mark place text.now }
    ensures within { IsTrue result → place < length text.now }
{
    place < text.len() && text[place] == mark
}

/// Guesses the item of a text with 3 digits before the `#`.
#[tactic(auto, unfolding(crate::specs::FrameGuess::short_item_in))]
fn with_three(text: &[u8]) -> Option<Item>
    requires { 3 < length text.now }
    ensures { result ≡ short_item_in text.now }
{
    let number = read_hexadecimal(&text[..3], 3)?;
    standard(number, &text[4..])
}

/// Guesses the item of a text with 8 digits before the `#`.
#[tactic(auto, unfolding(crate::specs::FrameGuess::long_item_in))]
fn with_eight(text: &[u8]) -> Option<Item>
    requires { 8 < length text.now }
    ensures { result ≡ long_item_in text.now }
{
    let number = read_hexadecimal(&text[..8], 8)?;
    long(number, &text[9..])
}

#[tactic(auto, unfolding(crate::specs::FrameGuess::standard_in))]
fn standard(number: u32, text: &[u8]) -> Option<Item>
    ensures { result ≡ standard_in number text.now }
{
    if number >= 0x800 {
        return None;
    }
    let id = CanId::standard(number as u16).ok()?;
    frame(id, text)
}

/// Guesses the item after a number of 8 digits. If bit 29 of the number is set, the item is an error message frame.
#[tactic(auto, unfolding(crate::specs::FrameGuess::long_in))]
fn long(number: u32, text: &[u8]) -> Option<Item>
    ensures { result ≡ long_in number text.now }
{
    if number < 0x2000_0000 {
        let id = CanId::extended(number).ok()?;
        return frame(id, text);
    }
    error(number - 0x2000_0000, text)
}

#[tactic(auto, unfolding(crate::specs::FrameGuess::frame_in, crate::specs::FrameGuess::payload_in))]
fn frame(id: CanId, text: &[u8]) -> Option<Item>
    ensures { result ≡ frame_in id text.now }
{
    let frame = if has_byte_at(b'R', 0, text) {
        remote_frame(id, &text[1..])?
    } else if has_byte_at(b'#', 0, text) {
        fd_frame(id, &text[1..])?
    } else {
        data_frame(id, text)?
    };
    Some(Item::Data(frame))
}

fn remote_frame(id: CanId, text: &[u8]) -> Option<Frame>
    ensures { result
        ≡ option_map (λ len. record { id = id; payload = Remote len }) (request_in text.now) }
{
    Frame::remote(id, requested_len(text)?).ok()
}

/// Reads the length that a remote frame requests.
#[tactic(auto, unfolding(crate::specs::FrameGuess::request_in))]
fn requested_len(text: &[u8]) -> Option<u8>
    ensures value { result ≡ request_in text.now }
    ensures small { IfSome result (λ len. len ≤ 8) }
{
    if text.is_empty() {
        return Some(0);
    }
    match text[0] {
        digit @ b'0'..=b'8' => Some(digit - b'0'),
        _ => None,
    }
}

#[tactic(auto, unfolding(crate::specs::FrameGuess::data_in, crate::specs::FrameGuess::bytes_in))]
fn data_frame(id: CanId, text: &[u8]) -> Option<Frame>
    ensures { result
        ≡ option_map (λ bytes. record { id = id; payload = Data bytes }) (data_in text.now) }
{
    let len = text.len() / 2;
    if len > 8 {
        return None;
    }
    let mut all = [0; 8];
    let bytes = &mut all[..len];
    decode_to_slice(text, bytes).ok()?;
    Frame::data(id, bytes).ok()
}

/// Reads the text after the second `#` of an FD frame: the flags and the data.
#[tactic(auto, unfolding(crate::specs::FrameGuess::fd_in))]
fn fd_frame(id: CanId, text: &[u8]) -> Option<Frame>
    ensures { result ≡ option_map (λ payload. record { id = id; payload = payload })
        (fd_in text.now) }
{
    let flags = flags(text)?;
    fd_of_data(id, flags, &text[1..])
}

/// Reads the flags of an FD frame, which are one digit.
#[tactic(auto, unfolding(crate::specs::FrameGuess::flags_in))]
fn flags(text: &[u8]) -> Option<FdFlags>
    ensures value { result ≡ flags_in text.now }
    ensures some { IfSome result (λ flags. 0 < length text.now) }
{
    if text.is_empty() || text[0] < b'0' {
        return None;
    }
    FdFlags::from_number(text[0] - b'0')
}

#[tactic(auto, unfolding(crate::specs::FrameGuess::fd_data_in, crate::specs::FrameGuess::bytes_in))]
fn fd_of_data(id: CanId, flags: FdFlags, text: &[u8]) -> Option<Frame>
    ensures { result ≡ option_map (λ bytes. record { id = id; payload = Fd flags bytes })
        (fd_data_in text.now) }
{
    let len = text.len() / 2;
    if !is_fd_length(len) {
        return None;
    }
    let mut all = [0; 64];
    let bytes = &mut all[..len];
    decode_to_slice(text, bytes).ok()?;
    Frame::fd_with(id, flags, bytes).ok()
}

#[tactic(auto, unfolding(crate::specs::FrameGuess::error_in, crate::specs::FrameGuess::bytes_in))]
fn error(class: u32, text: &[u8]) -> Option<Item>
    ensures { result ≡ error_in class text.now }
{
    if class >= 0x2000_0000 {
        return None;
    }
    let mut bytes = [0; 8];
    decode_to_slice(text, &mut bytes[..]).ok()?;
    let error = ErrorFrame::new(class, bytes).ok()?;
    Some(Item::Error(error))
}
