ghost use Rattle.std.specs.Prelude.{◌≡◌, ◌≤◌, ◌+◌, ◌++◌, [], length, IfOk, IfSome, OnOk, OnErr, vec_capacity};
ghost use Rattle.can_proto.specs.Messages.{messages_of, kept_of};
ghost use Rattle.can_proto.specs.Commands.{IsLoneSend};

use crate::message::Incoming;
use crate::scanning::{LIMIT, RunStart, scan};
use crate::usual_sends::lone_send;
use can_frame::Frame;
use std::alloc::{AllocError, Global};
use std::marker::Model;

/// Reads the messages of a stream that arrives in pieces. Between two calls it keeps the last `<` and at most 1,024 bytes after it,
/// if these may still become a message.
#[derive(Drop)]
pub struct Reader {
    is_open: bool,
    inside: Vec<u8>,
}

impl Model for Reader {
    ghost use Rattle.std.specs.Prelude.{ℕ, List, ◌≤◌, vec_capacity};
    ghost use Rattle.can_proto.specs.Messages.{MayBeKept};
    ghost use Rattle.can_proto.specs.Scanning.{text_kept};

    ghost Value = { List ℕ };

    ghost view = { λ r. text_kept r.is_open r.inside.items };

    ghost invariant = { λ r.
        MayBeKept (text_kept r.is_open r.inside.items) × (1024 ≤ vec_capacity r.inside) };
}

impl Reader {
    /// Returns a reader at the start of a stream. All memory that the reader may need later is allocated here.
    pub fn new(alloc: Global) -> Result<Reader, AllocError>
        ensures { IfOk result (λ r. r ≡ []) }
    {
        Ok(Reader {
            is_open: false,
            inside: Vec::with_capacity(alloc, LIMIT)?,
        })
    }

    /// Returns the messages that end in this piece of the stream. It fails only if the allocator has no memory, and then the reader
    /// is unchanged. The running time grows with the length of the piece.
    pub fn feed(&mut self, alloc: Global, piece: &[u8]) -> Result<Vec<Incoming>, AllocError>
        ensures given { IfOk result (λ out. out.items ≡ messages_of (self.old ++ piece.now)) }
        ensures keeps { OnOk result (self.new ≡ kept_of (self.old ++ piece.now)) }
        ensures refused { OnErr result (self.new ≡ self.old) }
    {
        let (out, place) = scan(alloc, self.is_open, &self.inside, piece)?;
        match place {
            RunStart::Outside => self.is_open = false,
            RunStart::Carried => {
                self.is_open = true;
                put(&mut self.inside, piece);
            }
            RunStart::At(start) => {
                self.is_open = true;
                self.inside.clear();
                put(&mut self.inside, &piece[start..]);
            }
        }
        Ok(out)
    }

    /// Returns the frame that a piece asks to send in raw mode. The piece must be a single `send` in its usual spelling, without
    /// any other bytes, and no message may have begun before it. The reader is unchanged.
    pub fn lone_send(&self, piece: &[u8]) -> Option<Frame>
        ensures sends { IfSome result (λ frame. IsLoneSend (self.now ++ piece.now) frame) }
        ensures keeps { IfSome result (λ _. kept_of (self.now ++ piece.now) ≡ self.now) }
    {
        if self.is_open {
            return None;
        }
        lone_send(piece)
    }
}

/// Adds bytes to a buffer that has capacity for them.
fn put(inside: &mut Vec<u8>, more: &[u8])
    requires { length inside.old.items + length more.now ≤ vec_capacity inside.old }
    ensures items { inside.new.items ≡ inside.old.items ++ more.now }
    ensures room { vec_capacity inside.old ≤ vec_capacity inside.new }
{
    match inside.extend_from_slice(more) {
        Ok(()) => {}
        Err(_) => unreachable!(),
    }
}
