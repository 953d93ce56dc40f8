ghost use Rattle.std.specs.Prelude.{◌≡◌, ◌<◌, ◌^◌};
ghost use Rattle.can_errframe.specs.ErrorMessages.{state_message, restart_message};

use crate::codes::{CAN_ERR_BUSOFF, CAN_ERR_CNT, CAN_ERR_CRTL, CAN_ERR_RESTARTED};
use crate::side::{Side, controller_code};
use can_confine::Counters;
use can_frame::ErrorFrame;

/// Returns an error message frame. The class has to fit in 29 bits.
pub(crate) fn frame_of(class: u32, bytes: [u8; 8]) -> ErrorFrame
    requires { class < 2 ^ 29 }
    ensures { result ≡ record { class = class; bytes = bytes } }
{
    match ErrorFrame::new(class, bytes) {
        Ok(frame) => frame,
        Err(_) => unreachable!(),
    }
}

/// Returns the frame that reports a change of an interface's error counters. It is `None` if the state stays the same or
/// the interface is down, a bus off frame if the interface went bus off, and otherwise a controller frame with both counts.
#[inline]
pub fn state_frame(old: Counters, new: Counters) -> Option<ErrorFrame>
    ensures { result ≡ state_message old new }
{
    // Most attempts do not change the counts, and comparing the counts is faster than comparing the states.
    if old == new {
        return None;
    }
    frame_of_change(old, new)
}

/// Does the same as `state_frame`, for counts that usually differ.
#[inline(never)]
fn frame_of_change(old: Counters, new: Counters) -> Option<ErrorFrame>
    ensures { result ≡ state_message old new }
{
    if old.state() == new.state() {
        return None;
    }
    if new.state().is_off() {
        return Some(frame_of(CAN_ERR_BUSOFF, [0; 8]));
    }
    if new.is_down() {
        return None;
    }
    let code = controller_code(Side::of_count(new.tec()), Side::of_count(new.rec()));
    let bytes = [0, code, 0, 0, 0, 0, new.tec() as u8, new.rec() as u8];
    Some(frame_of(CAN_ERR_CRTL | CAN_ERR_CNT, bytes))
}

/// Returns the frame that reports the restart of an interface.
pub fn restart_frame() -> ErrorFrame
    ensures { result ≡ restart_message }
{
    frame_of(CAN_ERR_RESTARTED, [0; 8])
}
