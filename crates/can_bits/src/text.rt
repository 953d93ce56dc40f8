ghost use Rattle.std.specs.Prelude.{◌≡◌, ◌++◌, ◌∷◌, [], IfOk, None, OnOk, Some};
ghost use Rattle.can_frame.specs.FrameText.{frame_spelling};
ghost use Rattle.can_frame.specs.declared.item.Item.TheVariants.{Data};
ghost use Rattle.can_bits.specs.Text.{IsBitsText, bit_text, counts_line, fast_bits, line_start, lines_after, name_of, nanos_line, silence_lines, silence_text, stuff_bits, time_line, total_line};

use crate::bit::{Bit, Field};
use crate::sending::frame_bits;
use crate::silence::silence;
use can_frame::{Frame, Item, Text, frame_text};
use can_wire::Timing;
use std::alloc::{AllocError, Global};

/// A buffer for a line that contains at most three numbers.
type LineText = Text<128>;

/// Returns the bits of a frame as text: one line for each field, with stuff bits in parentheses, and one line with the numbers of
/// bits. If the bus has bit rates, another line gives the time until end of frame. For each other frame, a line gives the bit at
/// which its sender stops sending.
pub fn bits_text(
    alloc: Global,
    frame: &Frame,
    others: &[Frame],
    timing: Option<Timing>,
) -> Result<Vec<u8>, AllocError>
    ensures { IfOk result (λ text. IsBitsText frame.now others.now timing text.items) }
{
    let bits = frame_bits(alloc, frame)?;
    let mut text = Vec::new(alloc);
    put_lines(&mut text, &bits)?;
    put_total(&mut text, &bits)?;
    put_time(&mut text, timing, frame)?;
    put_silences(alloc, &mut text, frame, &bits, others)?;
    Ok(text)
}

/// Writes bits, one line for each field.
fn put_lines(text: &mut Vec<u8>, bits: &[Bit]) -> Result<(), AllocError>
    ensures { OnOk result (text.new.items
        ≡ text.old.items ++ lines_after None bits.now ++ 10 ∷ []) }
{
    let mut before = None;
    for bit in bits {
        start_line(text, before, bit.field)?;
        put_bit(text, *bit)?;
        before = Some(bit.field);
    }
    text.push(b'\n')?;
    Ok(())
}

/// Starts a new line if the next bit and the bit before it belong to different fields.
fn start_line(text: &mut Vec<u8>, before: Option<Field>, field: Field) -> Result<(), AllocError>
    ensures { OnOk result (text.new.items ≡ text.old.items ++ line_start before field) }
{
    if let Some(before) = before {
        if before == field {
            return Ok(());
        }
        text.push(b'\n')?;
    }
    text.extend_from_slice(name(field).as_bytes())
}

/// Writes a bit as a digit, with parentheses around a stuff bit.
fn put_bit(text: &mut Vec<u8>, bit: Bit) -> Result<(), AllocError>
    ensures { OnOk result (text.new.items ≡ text.old.items ++ bit_text bit) }
{
    let digit = b'0' + u8::from(bit.is_recessive);
    if bit.is_stuff {
        text.extend_from_slice(&[b'(', digit, b')'])
    } else {
        text.extend_from_slice(&[digit])
    }
}

/// Returns the name of a field, padded to 15 columns.
fn name(field: Field) -> &'static str
    ensures { result.now ≡ name_of field }
{
    match field {
        Field::StartOfFrame => "SOF            ",
        Field::Identifier => "identifier     ",
        Field::SubstituteRemote => "SRR            ",
        Field::IdentifierExtension => "IDE            ",
        Field::ExtendedIdentifier => "extension      ",
        Field::RemoteRequest => "RTR            ",
        Field::RemoteSubstitution => "RRS            ",
        Field::Reserved => "reserved       ",
        Field::FdFormat => "FDF            ",
        Field::FdReserved => "res            ",
        Field::BitRateSwitch => "BRS            ",
        Field::ErrorState => "ESI            ",
        Field::LengthCode => "DLC            ",
        Field::Data => "data           ",
        Field::StuffCount => "stuff count    ",
        Field::Crc => "CRC            ",
        Field::CrcDelimiter => "CRC delimiter  ",
        Field::AckSlot => "ACK slot       ",
        Field::AckDelimiter => "ACK delimiter  ",
        Field::EndOfFrame => "EOF            ",
        Field::Intermission => "intermission   ",
    }
}

/// Writes the line with the numbers of bits.
fn put_total(text: &mut Vec<u8>, bits: &[Bit]) -> Result<(), AllocError>
    ensures { OnOk result (text.new.items ≡ text.old.items ++ total_line bits.now) }
{
    put_counts(text, bits.len(), stuff_bits(bits), fast_bits(bits))
}

/// Returns the number of stuff bits.
fn stuff_bits(bits: &[Bit]) -> usize
    ensures { result ≡ stuff_bits bits.now }
{
    bits.iter().filter(|bit| bit.is_stuff).count()
}

/// Returns the number of bits at the data bit rate.
fn fast_bits(bits: &[Bit]) -> usize
    ensures { result ≡ fast_bits bits.now }
{
    bits.iter().filter(|bit| bit.is_fast).count()
}

/// Writes the line with these numbers of bits.
fn put_counts(text: &mut Vec<u8>, all: usize, stuffs: usize, fast: usize) -> Result<(), AllocError>
    ensures { OnOk result (text.new.items ≡ text.old.items ++ counts_line all stuffs fast) }
{
    let mut line: LineText = Text::new();
    push_counts(&mut line, all as u64, stuffs as u64, fast as u64);
    text.extend_from_slice(line.as_bytes())
}

/// Writes the line with these numbers of bits into an empty buffer.
fn push_counts(line: &mut LineText, all: u64, stuffs: u64, fast: u64)
    requires { line.old ≡ [] }
    ensures { line.new ≡ counts_line all stuffs fast }
{
    line.push_all(b"total          ");
    line.push_count(all);
    line.push_all(b" bits, ");
    line.push_count(stuffs);
    line.push_all(b" of them stuff bits, ");
    line.push_count(fast);
    line.push_all(b" at the data bit rate\n");
}

/// Writes the time until end of frame if the bus has bit rates.
fn put_time(text: &mut Vec<u8>, timing: Option<Timing>, frame: &Frame) -> Result<(), AllocError>
    ensures { OnOk result (text.new.items ≡ text.old.items ++ time_line timing frame.now) }
{
    match timing {
        Some(timing) => put_nanos(text, timing.frame_nanos(frame)),
        None => Ok(()),
    }
}

/// Writes the line with this number of nanoseconds.
fn put_nanos(text: &mut Vec<u8>, nanos: u64) -> Result<(), AllocError>
    ensures { OnOk result (text.new.items ≡ text.old.items ++ nanos_line nanos) }
{
    let mut line: LineText = Text::new();
    line.push_all(b"time           ");
    line.push_count(nanos);
    line.push_all(b" ns to end of frame\n");
    text.extend_from_slice(line.as_bytes())
}

/// Writes, for each other frame, the bit at which its sender stops sending.
fn put_silences(
    alloc: Global,
    text: &mut Vec<u8>,
    frame: &Frame,
    bits: &[Bit],
    others: &[Frame],
) -> Result<(), AllocError>
    ensures { OnOk result (text.new.items
        ≡ text.old.items ++ silence_lines frame.now bits.now others.now) }
{
    for other in others {
        let found = silence(alloc, frame, bits, other)?;
        put_silence(text, found, other)?;
    }
    Ok(())
}

/// Writes the bit at which the sender of one other frame stops sending.
#[tactic(auto, unfolding(can_frame::specs::FrameText::frame_spelling))]
fn put_silence(
    text: &mut Vec<u8>,
    found: Option<(usize, Field)>,
    other: &Frame,
) -> Result<(), AllocError>
    ensures { OnOk result (text.new.items ≡ text.old.items
        ++ (silence_text found ++ frame_spelling (Data other.now) ++ 10 ∷ [])) }
{
    match found {
        Some((place, field)) => put_place(text, place, field)?,
        None => text.extend_from_slice(b"not silent     ")?,
    }
    text.extend_from_slice(frame_text(&Item::Data(*other)).as_bytes())?;
    text.push(b'\n')?;
    Ok(())
}

/// Writes the place and the field of a bit.
fn put_place(text: &mut Vec<u8>, place: usize, field: Field) -> Result<(), AllocError>
    ensures { OnOk result (text.new.items ≡ text.old.items ++ silence_text (Some (place, field))) }
{
    let mut line: LineText = Text::new();
    line.push_all(b"silent         ");
    line.push_all(name(field).as_bytes());
    line.push_all(b"bit ");
    line.push_count(place as u64);
    line.push_all(b", ");
    text.extend_from_slice(line.as_bytes())
}
