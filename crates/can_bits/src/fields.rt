ghost use Rattle.std.specs.Prelude.{◌≡◌, ◌≤◌, ◌<◌, ◌++◌, ◌∷◌, true, false, IfOk, OnOk, length, replicate};
ghost use Rattle.can_frame.specs.Arbitration.{arbitration_bits, extended_bits, low_bits, standard_bits};
ghost use Rattle.can_wire.specs.Division.{check_from_one};
ghost use Rattle.can_wire.specs.FrameBits.{bit_of, byte_bits, checked_bits, covered_bits, fd_code, fd_generator, fd_head, fd_rest, stuff_count};
ghost use Rattle.can_bits.specs.Fields.{check_fields, classic_fields, covered_fields, fd_head_fields, fd_rest_fields, first_fields};
ghost use Rattle.can_bits.specs.declared.bit.Field.TheVariants.{Data, StuffCount};
ghost use Rattle.can_bits.specs.Sent.{levels};
ghost use Rattle.can_bits.specs.inner.Checking.{IsGenerator, terms_of};
ghost use Rattle.can_bits.specs.inner.Sending.{Adds, AreFields, end_sent, in_field};

use crate::bit::{Bit, Field};
use crate::checksum::{CRC_15, CRC_17, CRC_21, Generator};
use can_frame::Frame;
use std::alloc::{AllocError, Global};

/// Appends a field: the lowest `count` bits of a number, most significant bit first.
fn push_field(bits: &mut Vec<Bit>, field: Field, count: u32, number: u32) -> Result<(), AllocError>
    requires { count ≤ 32 }
    ensures { OnOk result (bits.new.items
        ≡ bits.old.items ++ in_field field (low_bits count number)) }
{
    for place in (0..count).rev() {
        bits.push(Bit {
            field,
            is_recessive: (number >> place) & 1 == 1,
            is_stuff: false,
            is_fast: false,
        })?;
    }
    Ok(())
}

/// Appends data bytes.
fn push_bytes(bits: &mut Vec<Bit>, bytes: &[u8]) -> Result<(), AllocError>
    ensures { OnOk result (bits.new.items ≡ bits.old.items ++ in_field Data (byte_bits bytes.now)) }
{
    for byte in bytes {
        push_field(bits, Field::Data, 8, u32::from(*byte))?;
    }
    Ok(())
}

/// Appends start of frame and the arbitration bits of a frame with an 11-bit identifier.
fn push_standard(
    bits: &mut Vec<Bit>,
    number: u32,
    remote: Field,
    rtr: u32,
) -> Result<(), AllocError>
    requires { rtr < 2 }
    ensures { OnOk result (Adds bits.old.items bits.new.items
        (first_fields false remote) (0 ∷ standard_bits number rtr)) }
{
    push_field(bits, Field::StartOfFrame, 1, 0)?;
    push_field(bits, Field::Identifier, 11, number)?;
    push_field(bits, remote, 1, rtr)?;
    push_field(bits, Field::IdentifierExtension, 1, 0)
}

/// Appends start of frame and the arbitration bits of a frame with a 29-bit identifier.
fn push_extended(
    bits: &mut Vec<Bit>,
    number: u32,
    remote: Field,
    rtr: u32,
) -> Result<(), AllocError>
    requires { rtr < 2 }
    ensures { OnOk result (Adds bits.old.items bits.new.items
        (first_fields true remote) (0 ∷ extended_bits number rtr)) }
{
    push_field(bits, Field::StartOfFrame, 1, 0)?;
    push_field(bits, Field::Identifier, 11, number >> 18)?;
    push_field(bits, Field::SubstituteRemote, 1, 1)?;
    push_field(bits, Field::IdentifierExtension, 1, 1)?;
    push_field(bits, Field::ExtendedIdentifier, 18, number)?;
    push_field(bits, remote, 1, rtr)
}

/// Appends start of frame and the arbitration bits of a frame. `remote` is the field of the frame's RTR or RRS bit.
#[tactic(auto, unfolding(can_frame::specs::Arbitration::arbitration_bits))]
fn push_first(bits: &mut Vec<Bit>, frame: &Frame, remote: Field) -> Result<(), AllocError>
    ensures { OnOk result (Adds bits.old.items bits.new.items
        (first_fields frame.now.id.extended remote) (0 ∷ arbitration_bits frame.now)) }
{
    let id = frame.id();
    let rtr = bit(frame.is_remote());
    if id.is_extended() {
        push_extended(bits, id.number(), remote, rtr)
    } else {
        push_standard(bits, id.number(), remote, rtr)
    }
}

/// Returns a flag as a bit, 0 or 1.
fn bit(flag: bool) -> u32
    ensures value { result ≡ bit_of flag }
    ensures below { result < 2 }
{
    u32::from(flag)
}

/// Returns the bits of a classic frame from start of frame to its CRC, without stuff bits.
pub(crate) fn classic_fields(alloc: Global, frame: &Frame) -> Result<Vec<Bit>, AllocError>
    ensures { IfOk result (λ bits. AreFields bits.items
        (classic_fields frame.now) (checked_bits frame.now)) }
{
    let mut bits = covered_fields(alloc, frame)?;
    let crc = CRC_15.after(0, &bits);
    push_field(&mut bits, Field::Crc, CRC_15.width, crc)?;
    Ok(bits)
}

/// Returns the bits of a classic frame from start of frame to its last data bit.
fn covered_fields(alloc: Global, frame: &Frame) -> Result<Vec<Bit>, AllocError>
    ensures { IfOk result (λ bits. AreFields bits.items
        (covered_fields frame.now) (covered_bits frame.now)) }
{
    let mut bits = Vec::new(alloc);
    push_first(&mut bits, frame, Field::RemoteRequest)?;
    let reserved = 1 + bit(frame.id().is_extended());
    push_field(&mut bits, Field::Reserved, reserved, 0)?;
    push_field(&mut bits, Field::LengthCode, 4, u32::from(frame.len()))?;
    push_bytes(&mut bits, frame.bytes())?;
    Ok(bits)
}

/// Returns the bits of an FD frame from start of frame to BRS.
pub(crate) fn fd_head(alloc: Global, frame: &Frame) -> Result<Vec<Bit>, AllocError>
    ensures { IfOk result (λ bits. AreFields bits.items
        (fd_head_fields frame.now) (fd_head frame.now)) }
{
    let mut bits = Vec::new(alloc);
    push_first(&mut bits, frame, Field::RemoteSubstitution)?;
    push_field(&mut bits, Field::FdFormat, 1, 1)?;
    push_field(&mut bits, Field::FdReserved, 1, 0)?;
    push_field(&mut bits, Field::BitRateSwitch, 1, bit(frame.flags().brs))?;
    Ok(bits)
}

/// Returns the bits of an FD frame from ESI to its last data bit.
pub(crate) fn fd_rest(alloc: Global, frame: &Frame) -> Result<Vec<Bit>, AllocError>
    ensures { IfOk result (λ bits. AreFields bits.items
        (fd_rest_fields frame.now) (fd_rest frame.now)) }
{
    let mut bits = Vec::new(alloc);
    push_field(&mut bits, Field::ErrorState, 1, bit(frame.flags().esi))?;
    push_field(&mut bits, Field::LengthCode, 4, fd_code(frame.len()))?;
    push_bytes(&mut bits, frame.bytes())?;
    Ok(bits)
}

/// Returns the data length code of an FD frame with this number of data bytes.
fn fd_code(len: u8) -> u32
    ensures { result ≡ fd_code len }
{
    match len {
        0..=8 => u32::from(len),
        12 => 9,
        16 => 10,
        20 => 11,
        24 => 12,
        32 => 13,
        48 => 14,
        _ => 15,
    }
}

/// Returns the stuff count and the CRC of an FD frame, without fixed stuff bits. The CRC covers the bits sent so far, including
/// stuff bits, and the stuff count.
pub(crate) fn fd_check(
    alloc: Global,
    len: u8,
    sent: &[Bit],
    stuff_bits: usize,
) -> Result<Vec<Bit>, AllocError>
    requires { 0 < length sent.now }
    ensures { IfOk result (λ bits. AreFields bits.items
        (check_fields (fd_generator len))
        (stuff_count stuff_bits
        ++ check_from_one (fd_generator len) (levels sent.now ++ stuff_count stuff_bits))) }
{
    let mut bits = stuff_count(alloc, stuff_bits)?;
    let generator = fd_generator(len);
    let sent = generator.after(generator.one(), sent);
    let crc = generator.after(sent, &bits);
    push_field(&mut bits, Field::Crc, generator.width, crc)?;
    Ok(bits)
}

/// Returns the stuff count modulo 8 in Gray code, followed by its parity bit.
fn stuff_count(alloc: Global, stuff_bits: usize) -> Result<Vec<Bit>, AllocError>
    ensures { IfOk result (λ bits. AreFields bits.items
        (replicate 4 StuffCount) (stuff_count stuff_bits)) }
{
    let count = (stuff_bits % 8) as u32;
    let mut bits = Vec::new(alloc);
    push_field(&mut bits, Field::StuffCount, 3, count ^ (count / 2))?;
    push_field(&mut bits, Field::StuffCount, 1, count % 2)?;
    Ok(bits)
}

/// Returns the CRC generator of an FD frame with this number of data bytes.
#[tactic(auto, unfolding(can_wire::specs::Division::generator_17, can_wire::specs::Division::generator_21))]
fn fd_generator(len: u8) -> Generator
    ensures terms { terms_of result ≡ fd_generator len }
    ensures fits { IsGenerator result }
{
    if len <= 16 { CRC_17 } else { CRC_21 }
}

/// Appends the bits of a frame after its CRC, up to the end of intermission.
pub(crate) fn push_end(bits: &mut Vec<Bit>) -> Result<(), AllocError>
    ensures { OnOk result (bits.new.items ≡ bits.old.items ++ end_sent) }
{
    push_field(bits, Field::CrcDelimiter, 1, 1)?;
    push_field(bits, Field::AckSlot, 1, 0)?;
    push_field(bits, Field::AckDelimiter, 1, 1)?;
    push_field(bits, Field::EndOfFrame, 7, 0x7F)?;
    push_field(bits, Field::Intermission, 3, 0b111)
}
