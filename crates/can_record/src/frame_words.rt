ghost use Rattle.std.specs.Prelude.{◌≡◌, ◌≤◌, false, length, min, take};
ghost use Rattle.can_frame.specs.Frames.{is_fd};
ghost use Rattle.can_record.specs.FrameWords.{frame_in, identifier_in, is_remote_word};
ghost use Rattle.can_record.specs.Moments.{moment_in};

use can_frame::{CanId, Frame, Moment};
use std::marker::Model;

/// The identifier word of a frame that is not an FD frame (linux/can.h). It holds the identifier, and whether the frame is a remote
/// frame.
#[derive(Clone, Copy)]
pub struct IdWord {
    bits: u32,
}

impl Model for IdWord {
    ghost use Rattle.std.specs.Prelude.{ℕ};

    ghost Value = { ℕ };

    ghost view = { λ w. w.bits };

    ghost inverse = { λ n. record { bits = n } };
}

impl IdWord {
    /// The identifier.
    pub fn id(self) -> CanId
        ensures { result ≡ identifier_in self }
    {
        if self.bits >= 0x8000_0000 {
            CanId::extended(self.bits % 0x2000_0000).unwrap()
        } else {
            CanId::standard((self.bits % 0x800) as u16).unwrap()
        }
    }

    /// Returns whether the frame is a remote frame.
    pub fn is_remote(self) -> bool
        ensures { result ≡ is_remote_word self }
    {
        self.bits % 0x8000_0000 >= 0x4000_0000
    }
}

/// Returns the frame with this identifier word, this length and these bytes.
pub fn frame_in(word: IdWord, len: u8, bytes: &[u8; 8]) -> Frame
    ensures { result ≡ frame_in word len bytes.now }
{
    if word.is_remote() {
        Frame::remote(word.id(), short_len(len)).unwrap()
    } else {
        Frame::data(word.id(), data_in(len, bytes)).unwrap()
    }
}

/// Returns the first `len` bytes: the payload of a data frame with this length.
pub fn data_in(len: u8, bytes: &[u8; 8]) -> &[u8]
    ensures data { result.now ≡ take (min len 8) bytes.now }
    ensures short { length result.now ≤ 8 }
{
    &bytes[..short_len(len) as usize]
}

/// Returns the length, but at most 8.
fn short_len(len: u8) -> u8
    ensures { result ≡ min len 8 }
{
    if len <= 8 { len } else { 8 }
}

/// Returns the identifier word, the length and the eight bytes of a frame that is not an FD frame.
#[inline(always)]
pub fn frame_words(frame: &Frame) -> (IdWord, u8, [u8; 8])
    requires classic { is_fd frame.now.payload ≡ false }
    ensures back { frame_in result.0 result.1 result.2 ≡ frame.now }
    ensures short { result.1 ≤ 8 }
{
    // This call shows the prover that the identifier is within its range.
    let _ = frame.id().number();
    let word = IdWord { bits: frame.word() };
    (word, frame.len(), eight_bytes(frame.bytes()))
}

/// Returns these bytes, padded with zeros to eight.
#[inline(always)]
fn eight_bytes(bytes: &[u8]) -> [u8; 8]
    requires { length bytes.now ≤ 8 }
    ensures { take (length bytes.now) result ≡ bytes.now }
{
    if let Some(all) = bytes.first_chunk::<8>() {
        return *all;
    }
    let mut all = [0u8; 8];
    all[..bytes.len()].copy_from_slice(bytes);
    all
}

/// Returns the moment at this number of microseconds, or moment 0 if the number is too large for a moment.
pub fn moment_in(micros: u64) -> Moment
    ensures { result ≡ moment_in micros }
{
    if micros >= 10_000_000_000_000_000 {
        Moment::new(0).unwrap()
    } else {
        Moment::new(micros).unwrap()
    }
}
