//! The output of a session as a line: the session's number, a space, its words and LF. The line is omitted if the session has no
//! words.
ghost use Rattle.std.specs.Prelude.{◌≡◌, ◌++◌, ◌∷◌, ◌<◌, [], length, OnOk, IfOk};
ghost use Rattle.std.specs.Fmt.{decimal};

use crate::numbers::put_number;
use crate::order::SessionNumber;
use std::alloc::AllocError;

/// Appends the session's number and a space, and returns the length of both in bytes.
pub fn begin_output(said: &mut Vec<u8>, session: SessionNumber) -> Result<usize, AllocError>
    requires { said.old.items ≡ [] }
    ensures text { OnOk result (said.new.items ≡ decimal session ++ 32 ∷ []) }
    ensures len { IfOk result (λ n. n ≡ length said.new.items) }
{
    put_number(said, u64::from(session.number()))?;
    said.push(b' ')?;
    Ok(said.len())
}

/// Appends LF after the words of a session, or removes everything if there are no words. The words begin at index `begun`.
pub fn end_output(said: &mut Vec<u8>, begun: usize) -> Result<(), AllocError>
    ensures none { length said.old.items ≡ begun → said.new.items ≡ [] }
    ensures some { OnOk result (begun < length said.old.items →
        said.new.items ≡ said.old.items ++ 10 ∷ []) }
{
    if said.len() == begun {
        said.clear();
        return Ok(());
    }
    said.push(b'\n')?;
    Ok(())
}
