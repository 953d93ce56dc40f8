ghost use Rattle.std.specs.Prelude.{◌≡◌, ◌++◌, IfOk, IfSome};
ghost use Rattle.can_proto.specs.Stored.{stored_bytes};

use arrayvec::ArrayVec;
use std::alloc::{AllocError, Global};

/// The number of bytes that a message holds without an allocation. A `send` with single spaces always fits.
const SHORT: usize = 48;

/// The bytes of a message. A short message is held in the value itself, so messages of usual length need no allocation.
#[derive(Debug, Drop)]
pub enum Stored {
    Short(ArrayVec<u8, SHORT>),
    Long(Vec<u8>),
}

impl Stored {
    /// Returns the bytes in order.
    pub fn bytes(&self) -> &[u8]
        ensures { result.now ≡ stored_bytes self.now }
    {
        match self {
            Stored::Short(bytes) => bytes.as_slice(),
            Stored::Long(bytes) => bytes.as_slice(),
        }
    }

    /// Returns the held bytes followed by more bytes. It allocates only if the result has more than 48 bytes, and then once.
    #[inline(always)]
    pub fn joined(alloc: Global, held: &[u8], more: &[u8]) -> Result<Stored, AllocError>
        ensures { IfOk result (λ s. stored_bytes s ≡ held.now ++ more.now) }
    {
        match short(held, more) {
            Some(bytes) => Ok(Stored::Short(bytes)),
            None => Ok(Stored::Long(long(alloc, held, more)?)),
        }
    }
}

/// Returns a vector of two byte strings, one after the other.
#[inline(never)]
fn long(alloc: Global, held: &[u8], more: &[u8]) -> Result<Vec<u8>, AllocError>
    ensures { IfOk result (λ v. v.items ≡ held.now ++ more.now) }
{
    let mut bytes = Vec::with_capacity(alloc, held.len().saturating_add(more.len()))?;
    bytes.extend_from_slice(held)?;
    bytes.extend_from_slice(more)?;
    Ok(bytes)
}

/// Returns two byte strings, one after the other, if the result is short enough.
fn short(held: &[u8], more: &[u8]) -> Option<ArrayVec<u8, SHORT>>
    ensures { IfSome result (λ v. v.items ≡ held.now ++ more.now) }
{
    let mut bytes = ArrayVec::new();
    bytes.try_extend_from_slice(held).ok()?;
    bytes.try_extend_from_slice(more).ok()?;
    Some(bytes)
}
