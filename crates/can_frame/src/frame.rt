ghost use Rattle.std.specs.Prelude.{◌≡◌, ◌<◌, ◌≤◌, true, false, IsTrue, OkIff, length, replicate, take, drop, ◌-◌};
ghost use Rattle.can_frame.specs.Frames.{Payload, CanFrame, word_of, is_remote, is_fd, is_fd_length, payload_len, payload_bytes, no_flags, payload_flags, is_flagged};
ghost use Rattle.can_frame.specs.Frames.Payload.{Data, Remote, Fd};

use crate::can_id::CanId;
use crate::fd_flags::FdFlags;
use std::marker::Model;
use thiserror::Error;

/// The frame would carry, or request, too many bytes.
#[derive(Debug, Clone, Copy, PartialEq, Eq, Error)]
#[error("too long")]
pub struct TooLong;

/// The number of bytes is not a valid length of an FD frame.
#[derive(Debug, Clone, Copy, PartialEq, Eq, Error)]
#[error("bad fd length")]
pub struct BadFdLength;

/// The kind of a frame.
#[derive(Debug, Clone, Copy, PartialEq, Eq)]
enum Kind {
    Data,
    Remote,
    Fd(FdFlags),
}

/// A data frame of 0 to 8 bytes, a remote frame that requests 0 to 8 bytes, or an FD frame of 0 to 8, 12, 16, 20, 24, 32, 48 or 64
/// bytes (linux/can.h). A frame takes 76 bytes and no heap memory.
#[derive(Debug, Clone, Copy, PartialEq, Eq)]
pub struct Frame {
    id: CanId,
    kind: Kind,
    len: u8,
    bytes: [u8; 64],
}

impl Model for Frame {
    ghost use Rattle.can_frame.specs.Frames.{CanFrame};

    ghost Value = { CanFrame };

    ghost use Rattle.can_frame.specs.FrameFields.{frame_of, IsFrame, fields_of, fields-frame_of};

    ghost view = { frame_of };

    ghost invariant = { IsFrame };

    ghost inverse = { fields_of };

    ghost inverse_ok = { fields-frame_of };
}

impl Frame {
    /// Creates a data frame of at most 8 bytes.
    pub fn data(id: CanId, bytes: &[u8]) -> Result<Frame, TooLong>
        ensures { OkIff result (length bytes.now ≤ 8)
            (record { id = id; payload = Data bytes.now }) }
    {
        if bytes.len() > 8 {
            return Err(TooLong);
        }
        Ok(Frame {
            id,
            kind: Kind::Data,
            len: bytes.len() as u8,
            bytes: padded(bytes),
        })
    }

    /// Creates a remote frame, which requests a data frame of `len` bytes, at most 8.
    pub fn remote(id: CanId, len: u8) -> Result<Frame, TooLong>
        ensures { OkIff result (len ≤ 8) (record { id = id; payload = Remote len }) }
    {
        if len > 8 {
            return Err(TooLong);
        }
        Ok(Frame {
            id,
            kind: Kind::Remote,
            len,
            bytes: [0; 64],
        })
    }

    /// Creates an FD frame without flags, of 0 to 8, 12, 16, 20, 24, 32, 48 or 64 bytes.
    pub fn fd(id: CanId, bytes: &[u8]) -> Result<Frame, BadFdLength>
        ensures { OkIff result (IsTrue (is_fd_length (length bytes.now)))
            (record { id = id; payload = Fd no_flags bytes.now }) }
    {
        Frame::fd_with(id, FdFlags::none(), bytes)
    }

    /// Creates an FD frame with these flags. The number of bytes has to be a valid FD length.
    pub fn fd_with(id: CanId, flags: FdFlags, bytes: &[u8]) -> Result<Frame, BadFdLength>
        ensures { OkIff result (IsTrue (is_fd_length (length bytes.now)))
            (record { id = id; payload = Fd flags bytes.now }) }
    {
        if !is_fd_length(bytes.len()) {
            return Err(BadFdLength);
        }
        Ok(Frame {
            id,
            kind: Kind::Fd(flags),
            len: bytes.len() as u8,
            bytes: padded(bytes),
        })
    }

    /// The frame's identifier.
    pub fn id(self) -> CanId
        ensures { result ≡ self.id }
    {
        self.id
    }

    /// The number of bytes that the frame carries or requests: 0 to 8, or up to 64 in an FD frame.
    pub fn len(self) -> u8
        ensures length { result ≡ payload_len self.payload }
        ensures short { result ≤ 64 }
        ensures classic { is_fd self.payload ≡ false → result ≤ 8 }
        ensures fd { is_fd self.payload ≡ true → IsTrue (is_fd_length result) }
    {
        self.len
    }

    /// The bytes that the frame carries. A remote frame carries none.
    pub fn bytes(&self) -> &[u8]
        ensures { result.now ≡ payload_bytes self.now.payload }
    {
        match self.kind {
            Kind::Data | Kind::Fd(_) => &self.bytes[..self.len as usize],
            Kind::Remote => &[],
        }
    }

    /// Whether the frame is a remote frame, which requests data instead of carrying it.
    pub fn is_remote(self) -> bool
        ensures { result ≡ is_remote self.payload }
    {
        match self.kind {
            Kind::Remote => true,
            Kind::Data | Kind::Fd(_) => false,
        }
    }

    /// Whether the frame is an FD frame.
    pub fn is_fd(self) -> bool
        ensures { result ≡ is_fd self.payload }
    {
        match self.kind {
            Kind::Fd(_) => true,
            Kind::Data | Kind::Remote => false,
        }
    }

    /// The flags of an FD frame; other frames have none.
    pub fn flags(self) -> FdFlags
        ensures { result ≡ payload_flags self.payload }
    {
        match self.kind {
            Kind::Fd(flags) => flags,
            Kind::Data | Kind::Remote => FdFlags::none(),
        }
    }

    /// Whether the frame is an FD frame with at least one flag.
    pub fn is_flagged(self) -> bool
        ensures { result ≡ is_flagged self.payload }
    {
        !self.flags().is_none()
    }

    /// The identifier word of linux/can.h: the identifier's number, with bit 31 set for 29-bit identifiers and bit 30 set for
    /// remote frames.
    pub fn word(self) -> u32
        ensures { result ≡ word_of self }
    {
        let mut word = self.id.number();
        if self.id.is_extended() {
            word += 0x8000_0000;
        }
        if self.is_remote() {
            word += 0x4000_0000;
        }
        word
    }
}

/// Whether this number of bytes is a valid length of an FD frame.
pub fn is_fd_length(len: usize) -> bool
    ensures { result ≡ is_fd_length len }
{
    matches!(len, 0..=8 | 12 | 16 | 20 | 24 | 32 | 48 | 64)
}

/// Copies at most 64 bytes and fills the rest with zeros.
fn padded(bytes: &[u8]) -> [u8; 64]
    requires { length bytes.now ≤ 64 }
    ensures front { take (length bytes.now) result ≡ bytes.now }
    ensures rest { drop (length bytes.now) result ≡ replicate (64 - length bytes.now) 0 }
{
    let mut all = [0; 64];
    all[..bytes.len()].copy_from_slice(bytes);
    all
}
