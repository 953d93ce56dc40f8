ghost use Rattle.std.specs.Prelude.{◌≡◌, ◌≤◌, ◌<◌, ◌+◌, ◌∷◌, length};
ghost use Rattle.can_frame.specs.Frames.{is_fd, payload_len, payload_bytes, payload_flags};
ghost use Rattle.can_frame.specs.Arbitration.{arbitration_bits, low_bits, standard_bits, extended_bits};
ghost use Rattle.can_wire.specs.Stuffing.{stuffed};
ghost use Rattle.can_wire.specs.FrameBits.{bit_of, classic_head, covered_bits, checked_bits};
ghost use Rattle.can_wire.specs.FrameBits.{fd_head, fd_code, fd_to_data_end, fd_bits_to_brs};
ghost use Rattle.can_wire.specs.FrameBits.{by_rates, bits_to_data_end, bits_to_check_end, frame_bits_of};
ghost use Rattle.can_wire.specs.inner.Sending.{bits_of, nothing_sent, sent_all, fd_check_width};

use crate::bits::Bits;
use crate::checksum::check_sequence;
use crate::counter::Counter;
use crate::wire_bits::WireBits;
use can_frame::Frame;

/// The number of bits of a frame after its CRC: the CRC delimiter, the ACK slot, the ACK delimiter and seven bits of end of frame.
const AFTER_CHECK: u32 = 10;

/// Returns a flag as a bit, 0 or 1.
fn bit(flag: bool) -> u32
    ensures value { result ≡ bit_of flag }
    ensures below { result < 2 }
{
    u32::from(flag)
}

/// Returns start of frame and the arbitration bits of a frame with an 11-bit identifier.
fn standard_bits(number: u32, rtr: u32) -> Bits
    requires { rtr < 2 }
    ensures bits { bits_of result ≡ 0 ∷ standard_bits number rtr }
    ensures count { result.count ≡ 14 }
{
    Bits::none()
        .then(1, 0)
        .then(11, number)
        .then(1, rtr)
        .then(1, 0)
}

/// Returns start of frame and the arbitration bits of a frame with a 29-bit identifier.
fn extended_bits(number: u32, rtr: u32) -> Bits
    requires { rtr < 2 }
    ensures bits { bits_of result ≡ 0 ∷ extended_bits number rtr }
    ensures count { result.count ≡ 33 }
{
    Bits::none()
        .then(1, 0)
        .then(11, number >> 18)
        .then(2, 0b11)
        .then(18, number)
        .then(1, rtr)
}

/// Returns start of frame and the arbitration bits of a frame.
#[tactic(auto, unfolding(can_frame::specs::Arbitration::arbitration_bits))]
fn first_bits(frame: &Frame) -> Bits
    ensures bits { bits_of result ≡ 0 ∷ arbitration_bits frame.now }
    ensures few { result.count ≤ 33 }
{
    let id = frame.id();
    let rtr = bit(frame.is_remote());
    if id.is_extended() {
        extended_bits(id.number(), rtr)
    } else {
        standard_bits(id.number(), rtr)
    }
}

/// Returns the bits of a classic frame from start of frame to its data length code.
#[tactic(auto, using(crate::proofs::Bounds::bytes_within))]
fn classic_head(frame: &Frame) -> Bits
    ensures bits { bits_of result ≡ classic_head frame.now }
    ensures few { result.count ≤ 39 }
    ensures bytes { length (payload_bytes frame.now.payload) ≤ 64 }
{
    let reserved = 1 + bit(frame.id().is_extended());
    first_bits(frame)
        .then(reserved, 0)
        .then(4, u32::from(frame.len()))
}

/// Sends the bits of a classic frame that its CRC covers.
fn send_covered(frame: &Frame) -> Counter
    ensures sent { result ≡ sent_all (covered_bits frame.now) nothing_sent }
    ensures few { result.count ≤ 1110 }
{
    let mut counter = Counter::new();
    counter.send(classic_head(frame));
    counter.send_bytes(frame.bytes());
    counter
}

/// Returns how many bits a classic frame has from its start to the end of its CRC. The CRC is stuffed like the bits that it covers.
fn classic_to_check_end(frame: &Frame) -> u32
    ensures bits { result ≡ length (stuffed (checked_bits frame.now)) }
    ensures few { result ≤ 1200 }
{
    let mut counter = send_covered(frame);
    counter.send(check_sequence(classic_head(frame), frame.bytes()));
    counter.finish()
}

/// Returns the data length code of an FD frame.
fn fd_code(len: u8) -> u32
    ensures { result ≡ fd_code len }
{
    match len {
        0..=8 => u32::from(len),
        12 => 9,
        16 => 10,
        20 => 11,
        24 => 12,
        32 => 13,
        48 => 14,
        _ => 15,
    }
}

/// Returns how many bits an FD frame has from the end of its data to the end of its CRC: a stuff count of four bits, a CRC of 17 or
/// 21 bits, and six or seven fixed stuff bits.
fn fd_check_width(len: u8) -> u32
    ensures width { result ≡ fd_check_width len }
    ensures few { result ≤ 32 }
{
    if len <= 16 { 4 + 17 + 6 } else { 4 + 21 + 7 }
}

/// Returns the bits of an FD frame from start of frame to BRS, the bit that switches to the data bit rate.
fn fd_head(frame: &Frame) -> Bits
    ensures bits { bits_of result ≡ fd_head frame.now }
    ensures few { result.count ≤ 36 }
{
    first_bits(frame)
        .then(2, 0b10)
        .then(1, bit(frame.flags().brs))
}

/// Returns the bits of an FD frame between BRS and its data.
#[tactic(auto, using(crate::proofs::Bounds::bytes_within))]
fn fd_control(frame: &Frame) -> Bits
    ensures bits { bits_of result
        ≡ bit_of (payload_flags frame.now.payload).esi
        ∷ low_bits 4 (fd_code (payload_len frame.now.payload)) }
    ensures count { result.count ≡ 5 }
    ensures bytes { length (payload_bytes frame.now.payload) ≤ 64 }
{
    Bits::none()
        .then(1, bit(frame.flags().esi))
        .then(4, fd_code(frame.len()))
}

/// The number of bits of an FD frame from its start to BRS, and from its start to its last data bit.
#[derive(Drop)]
struct FdSent {
    to_brs: u32,
    to_data_end: u32,
}

/// Sends the bits of an FD frame to its last data bit.
fn send_fd(frame: &Frame) -> FdSent
    ensures brs { result.to_brs ≡ fd_bits_to_brs frame.now }
    ensures whole { result.to_data_end ≡ length (fd_to_data_end frame.now) }
    ensures rises { result.to_brs ≤ result.to_data_end }
    ensures few { result.to_data_end ≤ 1200 }
{
    let mut counter = Counter::new();
    counter.send(fd_head(frame));
    let to_brs = counter.count();
    counter.send(fd_control(frame));
    counter.send_bytes(frame.bytes());
    FdSent {
        to_brs,
        to_data_end: counter.count(),
    }
}

/// Splits the bits of an FD frame by bit rate. If the frame switches, all bits after the first `few` are sent at the data bit rate.
fn by_rates(switches: bool, few: u32, all: u32) -> WireBits
    requires { few ≤ all }
    ensures { result ≡ by_rates switches few all }
{
    if switches {
        WireBits {
            nominal: few,
            fast: all - few,
        }
    } else {
        WireBits {
            nominal: all,
            fast: 0,
        }
    }
}

/// Returns how many bits a frame has from its start to its last data bit.
#[tactic(auto, unfolding(crate::specs::FrameBits::bits_to_data_end))]
pub(crate) fn bits_to_data_end(frame: &Frame) -> WireBits
    ensures bits { result ≡ bits_to_data_end frame.now }
    ensures few { result.nominal ≤ 1200 }
{
    if frame.is_fd() {
        let sent = send_fd(frame);
        by_rates(frame.flags().brs, sent.to_brs, sent.to_data_end)
    } else {
        WireBits {
            nominal: send_covered(frame).count(),
            fast: 0,
        }
    }
}

/// Returns how many bits a frame has from its start to the end of its CRC.
#[tactic(auto, unfolding(crate::specs::FrameBits::bits_to_check_end))]
pub(crate) fn bits_to_check_end(frame: &Frame) -> WireBits
    ensures bits { result ≡ bits_to_check_end frame.now }
    ensures few { result.nominal ≤ 1300 }
{
    if frame.is_fd() {
        let sent = send_fd(frame);
        by_rates(
            frame.flags().brs,
            sent.to_brs,
            sent.to_data_end + fd_check_width(frame.len()),
        )
    } else {
        WireBits {
            nominal: classic_to_check_end(frame),
            fast: 0,
        }
    }
}

/// Returns how many bits a frame has on the wire, from start of frame to end of frame, including stuff bits. In an FD frame with
/// BRS the bits after BRS, to the end of the CRC, are sent at the data bit rate. All other bits are sent at the nominal bit rate.
pub fn frame_bits(frame: &Frame) -> WireBits
    ensures bits { result ≡ frame_bits_of frame.now }
    ensures few { result.nominal ≤ 1400 }
{
    bits_to_check_end(frame).then_nominal(AFTER_CHECK)
}
