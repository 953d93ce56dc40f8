ghost use Rattle.std.specs.Prelude.{◌≡◌, ◌∷◌, IfOk};
ghost use Rattle.std.specs.List.{join_with_byte};
ghost use Rattle.can_proto.specs.Words.{words_of};

use crate::words::next_word;
use std::alloc::{AllocError, Global};
use std::marker::Model;

/// Words that a client wrote.
#[derive(Debug, Drop)]
pub struct ClientWords {
    bytes: Vec<u8>,
}

impl Model for ClientWords {
    ghost use Rattle.std.specs.Prelude.{ℕ, List};

    ghost Value = { List ℕ };

    ghost view = { λ n. n.bytes.items };
}

impl ClientWords {
    /// Returns the words as bytes.
    pub fn bytes(&self) -> &[u8]
        ensures { result.now ≡ self.now }
    {
        &self.bytes
    }

    /// Returns a copy of these bytes.
    pub(crate) fn copied(alloc: Global, bytes: &[u8]) -> Result<ClientWords, AllocError>
        ensures { IfOk result (λ words. words ≡ bytes.now) }
    {
        let bytes = Vec::from_slice(alloc, bytes)?;
        Ok(ClientWords { bytes })
    }

    /// Returns the first word followed by the words of the text, with one space between two words.
    pub(crate) fn joined(alloc: Global, word: &[u8], rest: &[u8]) -> Result<ClientWords, AllocError>
        ensures { IfOk result (λ words.
            words ≡ join_with_byte 32 (word.now ∷ words_of rest.now)) }
    {
        let mut bytes = Vec::from_slice(alloc, word)?;
        let mut rest = rest;
        while let Some((next, after)) = next_word(rest) {
            bytes.push(b' ')?;
            bytes.extend_from_slice(next)?;
            rest = after;
        }
        Ok(ClientWords { bytes })
    }
}

/// The name of an interface as a client wrote it. There may be no interface of this name.
pub type WantedName = ClientWords;

/// A fault rule as a client wrote it, with one space between two words. The rule may be invalid.
pub type WantedRule = ClientWords;
