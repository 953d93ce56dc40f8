ghost use Rattle.std.specs.Prelude.{◌≡◌, ◌++◌, IfOk};

use crate::stored::Stored;
use std::alloc::{AllocError, Global};
use std::marker::Model;

/// A message: at most 1,024 bytes between `<` and `>`, with no other mark among them.
#[derive(Debug, Drop)]
pub struct Message {
    inside: Stored,
}

impl Model for Message {
    ghost use Rattle.std.specs.Prelude.{ℕ, List};
    ghost use Rattle.can_proto.specs.Stored.{stored_bytes};

    ghost Value = { List ℕ };

    ghost view = { λ m. stored_bytes m.inside };
}

impl Message {
    /// Returns the bytes between the marks.
    pub fn inside(&self) -> &[u8]
        ensures { result.now ≡ self.now }
    {
        self.inside.bytes()
    }

    /// Returns the message of the held bytes followed by more bytes.
    #[inline(always)]
    pub(crate) fn joined(alloc: Global, held: &[u8], more: &[u8]) -> Result<Message, AllocError>
        ensures { IfOk result (λ m. m ≡ held.now ++ more.now) }
    {
        let inside = Stored::joined(alloc, held, more)?;
        Ok(Message { inside })
    }
}

/// A message that a reader found in a stream, or the sign of a message that is too long.
#[derive(Debug, Drop)]
pub enum Incoming {
    /// A whole message.
    Message(Message),
    /// More than 1,024 bytes follow a `<` before the next mark.
    TooLong,
}
