ghost use Rattle.std.specs.Prelude.{IsTrue, ◌≡◌, ◌==◌, ◌≤◌, ◌+◌, true, Ok, Err, length, take, ok_or, IfOk, IfErr, IfSome};
ghost use Rattle.can_frame.specs.Frames.{is_fd_length};
ghost use Rattle.can_frame.specs.Numbers.{number_in};
ghost use Rattle.can_proto.specs.Words.{words_of};
ghost use Rattle.can_proto.specs.Pairs.{IsFirstByte, IsFirstId, AsksFor, fault_of_byte};
ghost use Rattle.can_proto.specs.declared.command.Command.TheVariants.{Send};
ghost use Rattle.can_proto.specs.Commands.{GivesAsRead, id_of, length_of, fd_length_of, bytes_of, IsDataFault, asks_to_send, send_of, send_fd_of, send_flagged_of, flags_of_word, remote_of};

use crate::command::Command;
use crate::fault::ProtoFault;
use crate::pairs::{byte_of, paired_bytes, short_id};
use crate::words::{has_words, next_word};
use can_frame::{CanId, FdFlags, Frame, is_fd_length, read_decimal, read_hexadecimal};

/// Reads an identifier: 8 digits (29 bits) or 1 to 3 digits (11 bits).
fn read_id(word: &[u8]) -> Result<CanId, ProtoFault>
    ensures { GivesAsRead result (id_of word.now) }
{
    id_in(word).ok_or(ProtoFault::BadId)
}

/// Returns the identifier that a word spells, or `None`.
#[tactic(auto, unfolding(crate::specs::Commands::id_of))]
fn id_in(word: &[u8]) -> Option<CanId>
    ensures { id_of word.now ≡ ok_or result ProtoFault.BadId }
{
    match word {
        [low] => short_id(b'0', b'0', *low),
        [middle, low] => short_id(b'0', *middle, *low),
        [high, middle, low] => short_id(*high, *middle, *low),
        _ if word.len() == 8 => long_id(word),
        _ => None,
    }
}

/// Returns the 29-bit identifier that a word of 8 digits spells, or `None`.
#[tactic(auto, unfolding(crate::specs::Commands::id_of))]
fn long_id(word: &[u8]) -> Option<CanId>
    requires { length word.now ≡ 8 }
    ensures { id_of word.now ≡ ok_or result ProtoFault.BadId }
{
    let number = read_hexadecimal(word, 8)?;
    let number = if number < 0x8000_0000 {
        number
    } else {
        number - 0x8000_0000
    };
    CanId::extended(number).ok()
}

/// Reads a length, which is a digit from 0 to 8.
#[tactic(auto, unfolding(crate::specs::Commands::length_of))]
fn read_length(word: &[u8]) -> Result<u8, ProtoFault>
    ensures value { GivesAsRead result (length_of word.now) }
    ensures small { IfOk result (λ n. n ≤ 8) }
{
    match word {
        [digit] if b'0' <= *digit && *digit <= b'8' => Ok(*digit - b'0'),
        _ => Err(ProtoFault::BadLength),
    }
}

/// Reads the length of an FD frame, in decimal without leading zeros.
#[tactic(auto, unfolding(crate::specs::Commands::fd_length_of))]
fn read_fd_length(word: &[u8]) -> Result<usize, ProtoFault>
    ensures value { GivesAsRead result (fd_length_of word.now) }
    ensures length { IfOk result (λ n. IsTrue (is_fd_length n)) }
    ensures small { IfOk result (λ n. n ≤ 64) }
{
    let Some(len) = read_decimal(word, 2) else {
        return Err(ProtoFault::BadLength);
    };
    let len = len as usize;
    let digits = if len < 10 { 1 } else { 2 };
    if is_fd_length(len) && word.len() == digits {
        Ok(len)
    } else {
        Err(ProtoFault::BadLength)
    }
}

/// Returns the byte that 1 or 2 hexadecimal digits spell, or `None`.
fn read_byte(word: &[u8]) -> Option<u8>
    ensures { result ≡ number_in 16 2 word.now }
{
    match word {
        [low] => byte_of(b'0', *low),
        [high, low] => byte_of(*high, *low),
        _ => None,
    }
}

/// Returns an array that begins with the bytes that `len` words spell. A wrong number of words is reported before a word that is
/// not a byte.
fn read_bytes<const N: usize>(rest: &[u8], len: usize) -> Result<[u8; N], ProtoFault>
    requires small { len ≤ N }
    requires few { len ≤ 64 }
    ensures count { IfOk result (λ bytes. (length (words_of rest.now) == len) ≡ true) }
    ensures value { IfOk result (λ bytes. bytes_of (words_of rest.now) ≡ Ok (take len bytes)) }
    ensures fault { IfErr result (IsDataFault len (words_of rest.now)) }
{
    if let [b' ', data @ ..] = rest
        && let Some(bytes) = paired_bytes::<N>(data, len)
    {
        return Ok(bytes);
    }
    spelled_bytes::<N>(rest, len)
}

/// Returns an array that begins with the bytes that `len` words spell. Any number of blanks may separate the words.
#[inline(never)]
fn spelled_bytes<const N: usize>(rest: &[u8], len: usize) -> Result<[u8; N], ProtoFault>
    requires small { len ≤ N }
    ensures count { IfOk result (λ bytes. (length (words_of rest.now) == len) ≡ true) }
    ensures value { IfOk result (λ bytes. bytes_of (words_of rest.now) ≡ Ok (take len bytes)) }
    ensures fault { IfErr result (IsDataFault len (words_of rest.now)) }
{
    let mut bytes = [0u8; N];
    let mut rest = rest;
    for i in 0..len {
        let (byte, after) = spelled_byte(rest, len - i - 1)?;
        bytes[i] = byte;
        rest = after;
    }
    match next_word(rest) {
        None => Ok(bytes),
        Some(_) => Err(ProtoFault::BadCount),
    }
}

/// Returns the byte that the first word spells, and the text after that word. `left` more words should follow.
fn spelled_byte(text: &[u8], left: usize) -> Result<(u8, &[u8]), ProtoFault>
    ensures value { IfOk result (λ found. IsFirstByte found.0 found.1.now text.now) }
    ensures fault { IfErr result (IsDataFault (left + 1) (words_of text.now)) }
{
    let Some((word, after)) = next_word(text) else {
        return Err(ProtoFault::BadCount);
    };
    match read_byte(word) {
        Some(byte) => Ok((byte, after)),
        None => Err(bad_byte(after, left)),
    }
}

/// Returns the fault of a word that is not a byte and is followed by the text `after`, which should have `left` words.
fn bad_byte(after: &[u8], left: usize) -> ProtoFault
    ensures { result ≡ fault_of_byte left (words_of after.now) }
{
    if has_words(after, left) {
        ProtoFault::BadByte
    } else {
        ProtoFault::BadCount
    }
}

/// Reads the arguments of `send ID LEN b ..`.
#[inline(never)]
pub fn read_send(rest: &[u8]) -> Result<Command, ProtoFault>
    ensures { GivesAsRead result (send_of (words_of rest.now)) }
{
    Ok(Command::Send(read_frame(rest)?))
}

/// Returns the data frame that these words ask to send.
fn read_frame(rest: &[u8]) -> Result<Frame, ProtoFault>
    ensures { GivesAsRead (asks_to_send result) (send_of (words_of rest.now)) }
{
    match usual_frame(rest) {
        Some(frame) => Ok(frame),
        None => spelled_frame(rest),
    }
}

/// Returns the data frame of words in their usual form: an identifier of three or eight digits, a length, and two
/// digits for each byte, with one space after each.
#[inline(always)]
pub fn usual_frame(text: &[u8]) -> Option<Frame>
    ensures { IfSome result (λ frame. send_of (words_of text.now) ≡ Ok (Send frame)) }
{
    match usual_id(text) {
        Some((id, rest)) => usual_payload(id, rest),
        None => None,
    }
}

/// Returns the data frame with this identifier and with the length and data that the text spells in their usual form.
#[inline(always)]
fn usual_payload(id: CanId, text: &[u8]) -> Option<Frame>
    ensures { IfSome result (λ frame. AsksFor frame id (words_of text.now)) }
{
    let [len @ b'0'..=b'8', b' ', data @ ..] = text else {
        return None;
    };
    let len = usize::from(*len - b'0');
    let bytes = paired_bytes::<8>(data, len)?;
    match Frame::data(id, &bytes[..len]) {
        Ok(frame) => Some(frame),
        Err(_) => None,
    }
}

/// Returns the identifier that a first word of three or eight digits spells, and the text after the space.
#[inline(always)]
fn usual_id(text: &[u8]) -> Option<(CanId, &[u8])>
    ensures { IfSome result (λ found. IsFirstId found.0 found.1.now text.now) }
{
    match text {
        [high, middle, low, b' ', rest @ ..] => Some((short_id(*high, *middle, *low)?, rest)),
        _ => usual_long_id(text),
    }
}

/// Returns the identifier that a first word of eight digits spells, and the text after the space.
fn usual_long_id(text: &[u8]) -> Option<(CanId, &[u8])>
    ensures { IfSome result (λ found. IsFirstId found.0 found.1.now text.now) }
{
    if text.len() < 9 || text[8] != b' ' {
        return None;
    }
    match read_id(&text[..8]) {
        Ok(id) => Some((id, &text[9..])),
        Err(_) => None,
    }
}

/// Returns the data frame that words of any valid form spell.
#[inline(never)]
#[tactic(auto, unfolding(crate::specs::Commands::send_of))]
fn spelled_frame(rest: &[u8]) -> Result<Frame, ProtoFault>
    ensures { GivesAsRead (asks_to_send result) (send_of (words_of rest.now)) }
{
    let Some((id_word, rest)) = next_word(rest) else {
        return Err(ProtoFault::BadCount);
    };
    let Some((len_word, rest)) = next_word(rest) else {
        return Err(ProtoFault::BadCount);
    };
    let id = read_id(id_word)?;
    let len = read_length(len_word)? as usize;
    let bytes = read_bytes::<8>(rest, len)?;
    match Frame::data(id, &bytes[..len]) {
        Ok(frame) => Ok(frame),
        Err(_) => Err(ProtoFault::BadLength),
    }
}

/// Reads the arguments of `sendfdx FLAGS ID LEN b ..`. The flags are a number from 0 to 3.
#[inline(never)]
#[tactic(auto, unfolding(crate::specs::Commands::send_flagged_of))]
pub fn read_send_flagged(rest: &[u8]) -> Result<Command, ProtoFault>
    ensures { GivesAsRead result (send_flagged_of (words_of rest.now)) }
{
    let Some((word, rest)) = next_word(rest) else {
        return Err(ProtoFault::BadCount);
    };
    let flags = read_flags(word)?;
    read_send_fd(flags, rest)
}

/// Reads the flags of an FD frame, which are one digit.
#[tactic(auto, unfolding(crate::specs::Commands::flags_of_word))]
fn read_flags(word: &[u8]) -> Result<FdFlags, ProtoFault>
    ensures { GivesAsRead result (flags_of_word word.now) }
{
    let number = match word {
        [digit] if b'0' <= *digit => *digit - b'0',
        _ => return Err(ProtoFault::BadNumber),
    };
    match FdFlags::from_number(number) {
        Some(flags) => Ok(flags),
        None => Err(ProtoFault::BadNumber),
    }
}

/// Reads the arguments of `sendfd ID LEN b ..`. The frame gets these flags.
#[inline(never)]
#[tactic(auto, unfolding(crate::specs::Commands::send_fd_of))]
pub fn read_send_fd(flags: FdFlags, rest: &[u8]) -> Result<Command, ProtoFault>
    ensures { GivesAsRead result (send_fd_of flags (words_of rest.now)) }
{
    let Some((id_word, rest)) = next_word(rest) else {
        return Err(ProtoFault::BadCount);
    };
    let Some((len_word, rest)) = next_word(rest) else {
        return Err(ProtoFault::BadCount);
    };
    let id = read_id(id_word)?;
    let len = read_fd_length(len_word)?;
    let bytes = read_bytes::<64>(rest, len)?;
    match Frame::fd_with(id, flags, &bytes[..len]) {
        Ok(frame) => Ok(Command::Send(frame)),
        Err(_) => Err(ProtoFault::BadLength),
    }
}

/// Reads the arguments of `sendrtr ID LEN`.
#[inline(never)]
#[tactic(auto, unfolding(crate::specs::Commands::remote_of))]
pub fn read_remote(rest: &[u8]) -> Result<Command, ProtoFault>
    ensures { GivesAsRead result (remote_of (words_of rest.now)) }
{
    let Some((id_word, rest)) = next_word(rest) else {
        return Err(ProtoFault::BadCount);
    };
    let Some((len_word, rest)) = next_word(rest) else {
        return Err(ProtoFault::BadCount);
    };
    if next_word(rest).is_some() {
        return Err(ProtoFault::BadCount);
    }
    let id = read_id(id_word)?;
    let len = read_length(len_word)?;
    match Frame::remote(id, len) {
        Ok(frame) => Ok(Command::Send(frame)),
        Err(_) => Err(ProtoFault::BadLength),
    }
}
