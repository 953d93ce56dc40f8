ghost use Rattle.std.specs.Prelude.{IfSome, ◌≡◌, ◌^◌, ◌≤◌, ◌<◌, length};
ghost use Rattle.can_record_text.specs.inner.Reading.{with_rest, number_at, long_at, mask_at, moment_at, socket_at, set_at, set_from, flag_at, item_at, frame_at};

use crate::numbers::long_number;
use crate::words::{next_word, same_word};
use can_event::SocketId;
use can_frame::{
    Frame, Iface, IfaceSet, Item, Moment, guess_item, read_decimal, read_hexadecimal, read_moment,
};

/// Reads a number below the limit, and returns it with the rest of the text.
#[tactic(auto, unfolding(crate::specs::inner::Reading::number_at))]
fn below(limit: u64, text: &[u8]) -> Option<(u64, &[u8])>
    ensures value { with_rest result ≡ number_at limit text.now }
    ensures small { IfSome result (λ x. x.0 < limit) }
{
    let (word, rest) = next_word(text);
    let n = read_decimal(word, 19)?;
    if n < limit { Some((n, rest)) } else { None }
}

/// Reads a number of 64 bits.
#[tactic(auto, unfolding(crate::specs::inner::Reading::long_at))]
pub fn long_field(text: &[u8]) -> Option<(u64, &[u8])>
    ensures { with_rest result ≡ long_at text.now }
{
    let (word, rest) = next_word(text);
    let n = long_number(word)?;
    Some((n, rest))
}

/// Reads a number of 32 bits.
pub fn short_field(text: &[u8]) -> Option<(u32, &[u8])>
    ensures { with_rest result ≡ number_at (2 ^ 32) text.now }
{
    let (n, rest) = below(0x1_0000_0000, text)?;
    Some((n as u32, rest))
}

pub fn byte_field(text: &[u8]) -> Option<(u8, &[u8])>
    ensures { with_rest result ≡ number_at 256 text.now }
{
    let (n, rest) = below(256, text)?;
    Some((n as u8, rest))
}

pub fn iface_field(text: &[u8]) -> Option<(Iface, &[u8])>
    ensures { with_rest result ≡ number_at 16 text.now }
{
    let (n, rest) = below(16, text)?;
    let iface = Iface::new(n as u8)?;
    Some((iface, rest))
}

/// Reads the number of filters, at most 512.
pub fn count_field(text: &[u8]) -> Option<(usize, &[u8])>
    ensures value { with_rest result ≡ number_at 513 text.now }
    ensures few { IfSome result (λ x. x.0 ≤ 512) }
{
    let (n, rest) = below(513, text)?;
    Some((n as usize, rest))
}

#[tactic(auto, unfolding(crate::specs::inner::Reading::moment_at))]
pub fn moment_field(text: &[u8]) -> Option<(Moment, &[u8])>
    ensures { with_rest result ≡ moment_at text.now }
{
    let (word, rest) = next_word(text);
    let m = read_moment(word)?;
    Some((m, rest))
}

#[tactic(auto, unfolding(crate::specs::inner::Reading::socket_at))]
pub fn socket_field(text: &[u8]) -> Option<(SocketId, &[u8])>
    ensures { with_rest result ≡ socket_at text.now }
{
    let (n, rest) = short_field(text)?;
    Some((SocketId(n), rest))
}

/// Reads a word of 32 bits in hexadecimal.
#[tactic(auto, unfolding(crate::specs::inner::Reading::mask_at))]
pub fn mask_field(text: &[u8]) -> Option<(u32, &[u8])>
    ensures { with_rest result ≡ mask_at text.now }
{
    let (word, rest) = next_word(text);
    let mask = read_hexadecimal(word, 8)?;
    Some((mask, rest))
}

#[tactic(auto, unfolding(crate::specs::inner::Reading::set_at))]
pub fn set_field(text: &[u8]) -> Option<(IfaceSet, &[u8])>
    ensures { with_rest result ≡ set_at text.now }
{
    let (word, rest) = next_word(text);
    let bits = read_hexadecimal(word, 4)?;
    Some((IfaceSet(bits as u16), rest))
}

#[tactic(auto, unfolding(crate::specs::inner::Reading::flag_at))]
pub fn flag_field(text: &[u8]) -> Option<(bool, &[u8])>
    ensures { with_rest result ≡ flag_at text.now }
{
    let (word, rest) = next_word(text);
    if same_word(word, b"0") {
        return Some((false, rest));
    }
    if same_word(word, b"1") {
        return Some((true, rest));
    }
    None
}

#[tactic(auto, unfolding(crate::specs::inner::Reading::item_at))]
pub fn item_field(text: &[u8]) -> Option<(Item, &[u8])>
    ensures { with_rest result ≡ item_at text.now }
{
    let (word, rest) = next_word(text);
    let item = guess_item(word)?;
    Some((item, rest))
}

#[tactic(auto, unfolding(crate::specs::inner::Reading::frame_at))]
pub fn frame_field(text: &[u8]) -> Option<(Frame, &[u8])>
    ensures { with_rest result ≡ frame_at text.now }
{
    let Some((item, rest)) = item_field(text) else {
        return None;
    };
    match &item {
        Item::Data(frame) => Some((*frame, rest)),
        Item::Error(_) => None,
    }
}

/// Reads a set of interfaces that begins after `front` bytes of the text.
#[tactic(auto, unfolding(crate::specs::inner::Reading::set_from))]
pub fn set_from(front: usize, text: &[u8]) -> Option<(IfaceSet, &[u8])>
    requires { front ≤ length text.now }
    ensures { with_rest result ≡ set_from front text.now }
{
    set_field(&text[front..])
}
