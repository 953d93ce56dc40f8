ghost use Rattle.std.specs.Prelude.{◌≡◌, IfOk, true, false};
ghost use Rattle.can_frame.specs.Frames.{is_fd};
ghost use Rattle.can_bits.specs.Sent.{AreBitsOf};
ghost use Rattle.can_bits.specs.inner.Sending.{AreToCheckEnd};

use crate::bit::Bit;
use crate::fields::{classic_fields, fd_check, fd_head, fd_rest, push_end};
use crate::sender::Sender;
use can_frame::Frame;
use std::alloc::{AllocError, Global};

/// Returns the bits of a frame on the wire, from start of frame to the end of intermission. The frame is acknowledged, and no error
/// occurs.
pub fn frame_bits(alloc: Global, frame: &Frame) -> Result<Vec<Bit>, AllocError>
    ensures { IfOk result (λ bits. AreBitsOf frame.now bits.items) }
{
    let mut bits = to_check_end(alloc, frame)?;
    push_end(&mut bits)?;
    Ok(bits)
}

/// Returns the bits of a frame from start of frame to the end of its CRC, with stuff bits.
fn to_check_end(alloc: Global, frame: &Frame) -> Result<Vec<Bit>, AllocError>
    ensures { IfOk result (λ bits. AreToCheckEnd frame.now bits.items) }
{
    if frame.is_fd() {
        fd_to_check_end(alloc, frame)
    } else {
        classic_to_check_end(alloc, frame)
    }
}

/// Returns the bits of a classic frame from start of frame to the end of its CRC, with stuff bits.
fn classic_to_check_end(alloc: Global, frame: &Frame) -> Result<Vec<Bit>, AllocError>
    requires { is_fd frame.now.payload ≡ false }
    ensures { IfOk result (λ bits. AreToCheckEnd frame.now bits.items) }
{
    let mut sender = Sender::new(alloc);
    sender.send(&classic_fields(alloc, frame)?, false)?;
    sender.flush(false)?;
    Ok(sender.bits)
}

/// Returns the bits of an FD frame from start of frame to the end of its CRC, with stuff bits. The last data bit is followed by a
/// fixed stuff bit and never by an ordinary stuff bit.
fn fd_to_check_end(alloc: Global, frame: &Frame) -> Result<Vec<Bit>, AllocError>
    requires { is_fd frame.now.payload ≡ true }
    ensures { IfOk result (λ bits. AreToCheckEnd frame.now bits.items) }
{
    let is_fast = frame.flags().brs;
    let head = fd_head(alloc, frame)?;
    let rest = fd_rest(alloc, frame)?;
    let mut sender = Sender::new(alloc);
    sender.send(&head, false)?;
    sender.send(&rest, is_fast)?;
    let stuff_bits = sender.bits.len() - head.len() - rest.len();
    let check = fd_check(alloc, frame.len(), &sender.bits, stuff_bits)?;
    sender.send_fixed(&check, is_fast)?;
    Ok(sender.bits)
}
