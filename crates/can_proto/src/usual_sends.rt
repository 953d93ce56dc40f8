//! Reads a piece that is a single whole `send`, as most pieces of a session in raw mode are. The bytes of the piece are not copied.
ghost use Rattle.std.specs.Prelude.{◌≡◌, ◌∷◌, ◌++◌, [], IfSome};
ghost use Rattle.can_proto.specs.Commands.{IsLoneSend};

use crate::sending::usual_frame;
use crate::verb::after_send;
use can_frame::Frame;

/// The length of the longest message that is read without copying. A `send` of eight bytes has 41 bytes between its marks. Most
/// longer pieces contain several messages.
const USUAL: usize = 48;

/// Returns the frame of the piece if it is `< send ID LEN b .. >` in the usual form, with nothing before or after it.
pub fn lone_send(piece: &[u8]) -> Option<Frame>
    ensures { IfSome result (λ frame. IsLoneSend piece.now frame) }
{
    let inside = between_marks(piece)?;
    if inside.len() > USUAL {
        return None;
    }
    usual_frame(after_send(inside)?)
}

/// Returns the bytes between the `<` at the start of a piece and the `>` at its end.
fn between_marks(piece: &[u8]) -> Option<&[u8]>
    ensures { IfSome result (λ inside. piece.now ≡ 60 ∷ inside.now ++ 62 ∷ []) }
{
    match piece {
        [b'<', inside @ .., b'>'] => Some(inside),
        _ => None,
    }
}
