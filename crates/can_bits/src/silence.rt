ghost use Rattle.std.specs.Prelude.{◌≡◌, IfOk};
ghost use Rattle.can_bits.specs.Sent.{levels};
ghost use Rattle.can_bits.specs.Text.{silence, silence_after};

use crate::bit::{Bit, Field};
use crate::sending::frame_bits;
use can_frame::Frame;
use std::alloc::{AllocError, Global};

/// Returns the bit at which the sender of the frame `other` stops sending because it loses arbitration to `frame`. The result is
/// the place of the bit, counted from 0, and its field. `bits` are the bits of `frame`.
pub fn silence(
    alloc: Global,
    frame: &Frame,
    bits: &[Bit],
    other: &Frame,
) -> Result<Option<(usize, Field)>, AllocError>
    ensures { IfOk result (λ found. found ≡ silence frame.now bits.now other.now) }
{
    if frame.arbitration_key() >= other.arbitration_key() {
        return Ok(None);
    }
    Ok(silent_at(bits, &frame_bits(alloc, other)?))
}

/// Returns the first bit that differs, if the sender of `others` sends a recessive bit there and reads a dominant bit.
fn silent_at(bits: &[Bit], others: &[Bit]) -> Option<(usize, Field)>
    ensures { result ≡ silence_after 0 bits.now (levels others.now) }
{
    for (place, bit) in bits.iter().enumerate() {
        let Some(other) = others.get(place) else {
            return None;
        };
        if bit.is_recessive != other.is_recessive {
            return if other.is_recessive {
                Some((place, bit.field))
            } else {
                None
            };
        }
    }
    None
}
