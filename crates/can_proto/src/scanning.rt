ghost use Rattle.std.specs.Prelude.{◌≡◌, ◌≤◌, ◌<◌, ◌+◌, ◌++◌, ◌∷◌, [], true, false, length, take, drop, IfOk, slice_index};
ghost use Rattle.can_proto.specs.Messages.{is_mark, has_mark, MayBeKept};
ghost use Rattle.can_proto.specs.declared.message.Incoming.TheVariants.{Message as Given};
ghost use Rattle.can_proto.specs.Scanning.{text_kept_at, text_kept, IsWithin, ReadsUpTo, Scans};

use crate::message::{Incoming, Message};
use std::alloc::{AllocError, Global};

/// The largest number of bytes in a message.
pub const LIMIT: usize = 1024;

/// The place at which the current run of bytes began.
#[derive(Clone, Copy)]
pub enum RunStart {
    /// No run is being read.
    Outside,
    /// The run began in an earlier piece, and this piece continues it.
    Carried,
    /// The run began at this byte of the piece.
    At(usize),
}

/// The number of bytes that are searched for a mark in one step.
const BLOCK: usize = 16;

/// Returns whether the block at an index contains a mark. The loop has no branches, so the compiler can compare all bytes at once.
fn block_has_mark(piece: &[u8], from: usize) -> bool
    requires { from + 16 ≤ length piece.now }
    ensures { result ≡ has_mark (drop from (take (from + 16) piece.now)) }
{
    let mut found = false;
    for i in from..from + BLOCK {
        found = found | ((piece[i] == b'<') | (piece[i] == b'>'));
    }
    found
}

/// Skips whole blocks that contain no mark, and returns the index after them.
fn clear_blocks(piece: &[u8], from: usize) -> usize
    requires { from ≤ length piece.now }
    ensures after { from ≤ result }
    ensures within { result ≤ length piece.now }
    ensures clear { has_mark (drop from (take result piece.now)) ≡ false }
{
    let mut i = from;
    while BLOCK <= piece.len() - i {
        if block_has_mark(piece, i) {
            return i;
        }
        i += BLOCK;
    }
    i
}

/// Returns the index of the next mark, or the length of the piece.
fn next_mark(piece: &[u8], from: usize) -> usize
    requires { from ≤ length piece.now }
    ensures after { from ≤ result }
    ensures within { result ≤ length piece.now }
    ensures clear { has_mark (drop from (take result piece.now)) ≡ false }
    ensures mark { result < length piece.now → is_mark (slice_index piece.now result) ≡ true }
{
    for i in clear_blocks(piece, from)..piece.len() {
        let byte = piece[i];
        if byte == b'<' || byte == b'>' {
            return i;
        }
    }
    piece.len()
}

/// Reads the bytes of the piece between two indexes. These bytes contain no mark.
fn pass(
    out: &mut Vec<Incoming>,
    held: &[u8],
    piece: &[u8],
    i: usize,
    end: usize,
    place: RunStart,
) -> Result<RunStart, AllocError>
    requires order { i ≤ end }
    requires there { end ≤ length piece.now }
    requires clear { has_mark (drop i (take end piece.now)) ≡ false }
    requires within { IsWithin place i }
    requires was { MayBeKept (text_kept_at held.now piece.now i place) }
    ensures { IfOk result (ReadsUpTo held.now piece.now i place end out.old.items out.new.items) }
{
    match place {
        RunStart::Outside => Ok(RunStart::Outside),
        RunStart::Carried => {
            if LIMIT - held.len() < end {
                out.push(Incoming::TooLong)?;
                Ok(RunStart::Outside)
            } else {
                Ok(RunStart::Carried)
            }
        }
        RunStart::At(start) => {
            if LIMIT < end - start {
                out.push(Incoming::TooLong)?;
                Ok(RunStart::Outside)
            } else {
                Ok(RunStart::At(start))
            }
        }
    }
}

/// Reads the mark at an index of the piece.
fn at_mark(
    alloc: Global,
    out: &mut Vec<Incoming>,
    held: &[u8],
    piece: &[u8],
    i: usize,
    place: RunStart,
) -> Result<RunStart, AllocError>
    requires there { i < length piece.now }
    requires mark { is_mark (slice_index piece.now i) ≡ true }
    requires within { IsWithin place i }
    requires was { MayBeKept (text_kept_at held.now piece.now i place) }
    ensures { IfOk result
        (ReadsUpTo held.now piece.now i place (i + 1) out.old.items out.new.items) }
{
    if piece[i] == b'<' {
        return Ok(RunStart::At(i + 1));
    }
    match place {
        RunStart::Outside => {}
        RunStart::Carried => push_message(alloc, out, held, &piece[..i])?,
        RunStart::At(start) => push_message(alloc, out, &[], &piece[start..i])?,
    }
    Ok(RunStart::Outside)
}

/// Adds the message of the held bytes followed by more bytes.
#[inline(never)]
fn push_message(
    alloc: Global,
    out: &mut Vec<Incoming>,
    held: &[u8],
    more: &[u8],
) -> Result<(), AllocError>
    ensures { IfOk result (λ _.
        out.new.items ≡ out.old.items ++ Given (held.now ++ more.now) ∷ []) }
{
    out.push(Incoming::Message(Message::joined(alloc, held, more)?))?;
    Ok(())
}

/// Returns the messages of the held bytes followed by a piece, and the start of the run at the end of the piece. If `is_open` is
/// true, a run was being read and `held` contains its bytes so far.
pub fn scan(
    alloc: Global,
    is_open: bool,
    held: &[u8],
    piece: &[u8],
) -> Result<(Vec<Incoming>, RunStart), AllocError>
    requires { MayBeKept (text_kept is_open held.now) }
    ensures { IfOk result (λ r.
        Scans (text_kept is_open held.now) held.now piece.now r.0.items r.1) }
{
    let mut out = Vec::new(alloc);
    let mut place = if is_open {
        RunStart::Carried
    } else {
        RunStart::Outside
    };
    let mut i = 0;
    while i < piece.len() {
        let end = next_mark(piece, i);
        place = pass(&mut out, held, piece, i, end, place)?;
        if end == piece.len() {
            return Ok((out, place));
        }
        place = at_mark(alloc, &mut out, held, piece, end, place)?;
        i = end + 1;
    }
    Ok((out, place))
}
