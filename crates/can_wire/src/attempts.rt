ghost use Rattle.std.specs.Prelude.{◌≡◌, ◌≤◌};
ghost use Rattle.can_wire.specs.AttemptBits.{is_early, bits_to_fault, attempt_bits_of};

use crate::frames::{bits_to_check_end, bits_to_data_end, frame_bits};
use crate::wire_bits::WireBits;
use can_attempt::Class;
use can_fault::{GlobalKind, LocalKind, Verdict};
use can_frame::Frame;

/// The number of bits from the end of the CRC to the end of the ACK slot: the CRC delimiter and the ACK slot.
const TO_ACK_SLOT: u32 = 2;

/// The number of bits from the end of the CRC to the end of the ACK delimiter.
const TO_ACK_DELIMITER: u32 = 3;

/// The length in bits of an error flag that no other node answers.
const FLAG: u32 = 6;

/// The length in bits of an error flag and the overload flag with which receivers answer it. The overload flag begins one bit
/// later.
const OVERLOAD_ANSWERED_FLAG: u32 = 7;

/// The length in bits of an error flag and the error flags with which other nodes answer it. Their flags begin when it ends.
const ANSWERED_FLAG: u32 = 12;

/// The length in bits of the delimiter that ends an error frame or an overload frame.
const DELIMITER: u32 = 8;

/// The length in bits of the intermission between two frames.
const INTERMISSION: u32 = 3;

/// Whether the fault is detected by the end of the data. Other faults are detected after the CRC.
fn is_early(verdict: Verdict) -> bool
    ensures { result ≡ is_early verdict }
{
    match verdict {
        Verdict::Global(GlobalKind::Bit) | Verdict::Local(_, LocalKind::Stuff) => true,
        Verdict::Global(GlobalKind::Form) | Verdict::Local(_, LocalKind::Crc | LocalKind::Form) =>
            false,
        Verdict::Good | Verdict::LastBit => false,
    }
}

/// Returns how many bits of a frame are sent before error flags answer its fault.
fn bits_to_fault(frame: &Frame, verdict: Verdict) -> WireBits
    ensures bits { result ≡ bits_to_fault frame.now verdict }
    ensures few { result.nominal ≤ 1400 }
{
    if is_early(verdict) {
        bits_to_data_end(frame)
    } else {
        bits_to_check_end(frame).then_nominal(TO_ACK_DELIMITER)
    }
}

/// Returns how many bits an attempt to send a frame takes, from start of frame until the next attempt may begin. `verdict` is the
/// fault that struck the attempt, and `class` is its outcome. A verdict does not name a bit, so this project chooses where a failed
/// attempt ends. The 8 bits for which an error passive sender waits after an attempt are not counted.
pub fn attempt_bits(frame: &Frame, class: Class, verdict: Verdict) -> WireBits
    ensures { result ≡ attempt_bits_of frame.now class verdict }
{
    let (sent, end) = match class {
        Class::Done => (frame_bits(frame), 0),
        Class::LastBit => (frame_bits(frame), OVERLOAD_ANSWERED_FLAG + DELIMITER),
        Class::NoAck => (bits_to_check_end(frame), TO_ACK_SLOT + FLAG + DELIMITER),
        Class::Destroyed => (bits_to_fault(frame, verdict), ANSWERED_FLAG + DELIMITER),
    };
    sent.then_nominal(end + INTERMISSION)
}
