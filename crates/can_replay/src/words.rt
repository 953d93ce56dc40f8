ghost use Rattle.std.specs.Prelude.{◌≡◌, ◌≤◌, ◌+◌, ◌++◌, ◌∷◌, [], OnOk, codes, decimal, length};
ghost use Rattle.can_replay.specs.Words.{counts_part, dropped_words, lost_part, parted, put_word};

use can_confine::Counters;
use can_event::SocketId;
use can_frame::{Item, Text, frame_text};
use std::alloc::AllocError;

/// A buffer for the longest part about an interface: a name of at most 9 bytes and three numbers.
type PartText = Text<80>;

/// A buffer for one word: a number, optionally followed by a colon and another number or an error message frame.
type WordText = Text<192>;

/// Writes the error counts of an interface if they changed.
#[tactic(auto, unfolding(crate::specs::Words::counts_part, crate::specs::Words::parted))]
pub(crate) fn put_counts(
    out: &mut Vec<u8>,
    iface: usize,
    before: Counters,
    after: Counters,
) -> Result<(), AllocError>
    ensures { OnOk result (out.new.items ≡ out.old.items ++ counts_part iface before after) }
{
    if before.tec() == after.tec() && before.rec() == after.rec() {
        return Ok(());
    }
    let mut part: PartText = Text::new();
    push_counts(&mut part, iface, after);
    out.extend_from_slice(part.as_bytes())
}

/// Appends the part that `put_counts` writes to a buffer.
fn push_counts(part: &mut PartText, iface: usize, after: Counters)
    requires { part.old ≡ [] }
    ensures { part.new ≡ codes "; counts " ++ decimal iface ++
        32 ∷ decimal after.tec ++ 32 ∷ decimal after.rec }
{
    part.push_all(b"; counts ");
    part.push_count(iface as u64);
    part.push(b' ');
    part.push_count(u64::from(after.tec()));
    part.push(b' ');
    part.push_count(u64::from(after.rec()));
}

/// Writes the number of frames that an interface lost, if it lost any.
#[tactic(auto, unfolding(crate::specs::Words::lost_part, crate::specs::Words::parted))]
pub(crate) fn put_lost(out: &mut Vec<u8>, iface: usize, count: u64) -> Result<(), AllocError>
    ensures { OnOk result (out.new.items ≡ out.old.items ++ lost_part iface count) }
{
    if count == 0 {
        return Ok(());
    }
    let mut part: PartText = Text::new();
    part.push_all(b"; lost ");
    part.push_count(iface as u64);
    part.push(b' ');
    part.push_count(count);
    out.extend_from_slice(part.as_bytes())
}

/// Writes an item that was queued on a socket.
#[tactic(auto, unfolding(crate::specs::Words::parted))]
pub(crate) fn put_item(out: &mut Vec<u8>, id: SocketId, item: &Item) -> Result<(), AllocError>
    ensures { OnOk result (out.new.items ≡ out.old.items ++ parted (put_word id.0 item.now ∷ [])) }
{
    let mut word: WordText = Text::new();
    word.push(b' ');
    push_item(&mut word, id, item);
    out.extend_from_slice(word.as_bytes())
}

/// Appends the same word as `put_item` to a buffer, without the leading space.
fn push_item(word: &mut WordText, id: SocketId, item: &Item)
    requires { length word.old ≤ 1 }
    ensures { word.new ≡ word.old ++ put_word id.0 item.now }
{
    word.push_count(u64::from(id.0));
    if let Item::Error(_) = item {
        word.push(b':');
        word.push_all(frame_text(item).as_bytes());
    }
}

/// Writes how many items were dropped at a socket, if any were dropped.
#[tactic(auto, unfolding(crate::specs::Words::parted))]
pub(crate) fn put_dropped(out: &mut Vec<u8>, id: SocketId, count: u64) -> Result<(), AllocError>
    ensures { OnOk result (out.new.items ≡ out.old.items ++ parted (dropped_words id.0 count)) }
{
    if count == 0 {
        return Ok(());
    }
    let mut word: WordText = Text::new();
    word.push(b' ');
    word.push_count(u64::from(id.0));
    word.push(b':');
    word.push_count(count);
    out.extend_from_slice(word.as_bytes())
}
