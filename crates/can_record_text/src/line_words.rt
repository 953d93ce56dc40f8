ghost use Rattle.std.specs.Prelude.{◌≡◌, ◌≤◌, ◌+◌, ◌++◌, ◌∷◌, [], IsTrue, false, length, decimal};
ghost use Rattle.can_frame.specs.Frames.{is_remote, is_fd, payload_len};
ghost use Rattle.can_frame.specs.FrameText.{frame_spelling, pairs};
ghost use Rattle.can_frame.specs.declared.item.Item.TheVariants as item;
ghost use Rattle.can_attempt.specs.Words.{class_word};
ghost use Rattle.can_record.specs.FrameWords.{frame_in, is_remote_word};
ghost use Rattle.can_record_text.specs.Spelling.{ack_word, flag_word, local_front, mask_word, moment_word, set_word, verdict_word};

use can_attempt::{AckMode, Class};
use can_fault::{GlobalKind, LocalKind, Verdict};
use can_frame::{ErrorFrame, Frame, IfaceSet, Item, Moment, Text, frame_text};
use can_record::{IdWord, data_in};

/// The buffer for a line without filters. The words of an event have at most 166 bytes, and those of a reply at most 225.
pub type LineText = Text<392>;

/// Appends a decimal number and the byte that ends it.
pub(crate) fn push_number(line: &mut LineText, n: u64, gap: u8)
    requires { length line.old + 21 ≤ 392 }
    ensures text { line.new ≡ line.old ++ (decimal n ++ gap ∷ []) }
    ensures len { length line.new ≤ length line.old + 21 }
{
    push_decimal(line, n);
    line.push(gap);
}

/// Appends a decimal number. Numbers of one digit are the most common, so they have a fast path.
#[tactic(auto, using(std::proofs::lemmas::Fmt::decimal_digit))]
fn push_decimal(line: &mut LineText, n: u64)
    requires { length line.old + 20 ≤ 392 }
    ensures text { line.new ≡ line.old ++ decimal n }
    ensures len { length line.new ≤ length line.old + 20 }
{
    if n < 10 {
        line.push(b'0' + n as u8);
    } else {
        line.push_count(n);
    }
}

/// Appends a set of interfaces and the byte that ends it.
#[tactic(auto, unfolding(crate::specs::Spelling::set_word))]
pub(crate) fn push_set(line: &mut LineText, set: IfaceSet, gap: u8)
    requires { length line.old + 5 ≤ 392 }
    ensures text { line.new ≡ line.old ++ (set_word set ++ gap ∷ []) }
    ensures len { length line.new ≡ length line.old + 5 }
{
    line.push_hex(4, u64::from(set.0));
    line.push(gap);
}

/// Appends a word of 32 bits in hexadecimal, and a space.
#[tactic(auto, unfolding(crate::specs::Spelling::mask_word))]
pub(crate) fn push_mask(line: &mut LineText, mask: u32)
    requires { length line.old + 9 ≤ 392 }
    ensures text { line.new ≡ line.old ++ (mask_word mask ++ 32 ∷ []) }
    ensures len { length line.new ≡ length line.old + 9 }
{
    line.push_hex(8, u64::from(mask));
    line.push(b' ');
}

/// Appends a moment (seconds, a point and six digits of microseconds) and the byte that ends it.
#[tactic(auto, unfolding(crate::specs::Spelling::moment_word))]
pub(crate) fn push_moment(line: &mut LineText, moment: Moment, gap: u8)
    requires { length line.old + 18 ≤ 392 }
    ensures text { line.new ≡ line.old ++ (moment_word moment ++ gap ∷ []) }
    ensures len { length line.new ≤ length line.old + 18 }
{
    line.push_moment(moment);
    line.push(gap);
}

/// Appends a frame and a space.
#[tactic(auto, unfolding(can_frame::specs::FrameText::frame_spelling), using(crate::proofs::Short::data_text, crate::proofs::Short::data_short))]
pub(crate) fn push_frame(line: &mut LineText, frame: &Frame)
    requires { length line.old + 140 ≤ 392 }
    ensures text { line.new ≡ line.old ++ (frame_spelling (item.Data frame.now) ++ 32 ∷ []) }
    ensures len { length line.new ≤ length line.old + 140 }
{
    if !is_short(frame) {
        return push_frame_text(line, frame);
    }
    line.push_id(frame.id());
    push_bytes(line, frame.bytes());
}

/// Returns whether the frame is a data frame of at most 8 bytes that is not an FD frame.
fn is_short(frame: &Frame) -> bool
    ensures remote { IsTrue result → is_remote frame.now.payload ≡ false }
    ensures fd { IsTrue result → is_fd frame.now.payload ≡ false }
    ensures short { IsTrue result → payload_len frame.now.payload ≤ 8 }
{
    frame.len() <= 8 && !frame.is_remote() && !frame.is_fd()
}

/// Appends a frame of any kind and a space.
#[inline(never)]
fn push_frame_text(line: &mut LineText, frame: &Frame)
    requires { length line.old + 140 ≤ 392 }
    ensures text { line.new ≡ line.old ++ (frame_spelling (item.Data frame.now) ++ 32 ∷ []) }
    ensures len { length line.new ≤ length line.old + 140 }
{
    line.push_all(frame_text(&Item::Data(*frame)).as_bytes());
    line.push(b' ');
}

/// Appends a packed data frame of at most 8 bytes, and a space.
#[tactic(auto, unfolding(can_frame::specs::FrameText::frame_spelling))]
pub(crate) fn push_packed(line: &mut LineText, word: IdWord, len: u8, bytes: &[u8; 8])
    requires room { length line.old + 26 ≤ 392 }
    requires data { is_remote_word word ≡ false }
    ensures text { line.new ≡ line.old ++
        (frame_spelling (item.Data (frame_in word len bytes.now)) ++ 32 ∷ []) }
    ensures len { length line.new ≤ length line.old + 26 }
{
    line.push_id(word.id());
    push_bytes(line, data_in(len, bytes));
}

/// Appends an error message frame and a space.
#[tactic(auto, unfolding(can_frame::specs::FrameText::frame_spelling))]
pub(crate) fn push_error(line: &mut LineText, error: ErrorFrame)
    requires { length line.old + 26 ≤ 392 }
    ensures text { line.new ≡ line.old ++ (frame_spelling (item.Error error) ++ 32 ∷ []) }
    ensures len { length line.new ≤ length line.old + 26 }
{
    line.push_hex(8, 0x2000_0000 + u64::from(error.class()));
    push_bytes(line, &error.data());
}

/// Appends a `#`, bytes as hexadecimal digits, and a space.
fn push_bytes(line: &mut LineText, bytes: &[u8])
    requires room { length line.old + 18 ≤ 392 }
    requires short { length bytes.now ≤ 8 }
    ensures text { line.new ≡ line.old ++ 35 ∷ (pairs bytes.now ++ 32 ∷ []) }
    ensures len { length line.new ≤ length line.old + 18 }
{
    line.push(b'#');
    line.push_pairs(bytes);
    line.push(b' ');
}

/// Appends the word for the class of an attempt, and a space.
pub(crate) fn push_class(line: &mut LineText, class: Class)
    requires { length line.old + 10 ≤ 392 }
    ensures text { line.new ≡ line.old ++ (class_word class ++ 32 ∷ []) }
    ensures len { length line.new ≤ length line.old + 10 }
{
    match class {
        Class::Done => line.push_all(b"done "),
        Class::LastBit => line.push_all(b"lastbit "),
        Class::Destroyed => line.push_all(b"destroyed "),
        Class::NoAck => line.push_all(b"noack "),
    }
}

/// Appends a flag (`0` or `1`) and a space.
pub(crate) fn push_flag(line: &mut LineText, on: bool)
    requires { length line.old + 2 ≤ 392 }
    ensures text { line.new ≡ line.old ++ (flag_word on ++ 32 ∷ []) }
    ensures len { length line.new ≡ length line.old + 2 }
{
    line.push_all(if on { b"1 " } else { b"0 " });
}

/// Appends the acknowledgement mode and a space.
pub(crate) fn push_ack(line: &mut LineText, ack: AckMode)
    requires { length line.old + 7 ≤ 392 }
    ensures text { line.new ≡ line.old ++ (ack_word ack ++ 32 ∷ []) }
    ensures len { length line.new ≤ length line.old + 7 }
{
    match ack {
        AckMode::Always => line.push_all(b"always "),
        AckMode::Peers => line.push_all(b"peers "),
    }
}

/// Appends a verdict and a space.
pub(crate) fn push_verdict(line: &mut LineText, verdict: Verdict)
    requires { length line.old + 17 ≤ 392 }
    ensures text { line.new ≡ line.old ++ (verdict_word verdict ++ 32 ∷ []) }
    ensures len { length line.new ≤ length line.old + 17 }
{
    match verdict {
        Verdict::Good => line.push_all(b"good "),
        Verdict::Global(GlobalKind::Bit) => line.push_all(b"global-bit "),
        Verdict::Global(GlobalKind::Form) => line.push_all(b"global-form "),
        Verdict::LastBit => line.push_all(b"lastbit "),
        Verdict::Local(set, kind) => {
            push_local(line, kind);
            push_set(line, set, b' ');
        }
    }
}

/// Appends the kind of a local fault and a colon.
fn push_local(line: &mut LineText, kind: LocalKind)
    requires { length line.old + 12 ≤ 392 }
    ensures text { line.new ≡ line.old ++ local_front kind }
    ensures len { length line.new ≤ length line.old + 12 }
{
    match kind {
        LocalKind::Stuff => line.push_all(b"local-stuff:"),
        LocalKind::Crc => line.push_all(b"local-crc:"),
        LocalKind::Form => line.push_all(b"local-form:"),
    }
}
