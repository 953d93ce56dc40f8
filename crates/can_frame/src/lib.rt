//! The basic types of a CAN bus: identifiers, frames, error message frames, moments, and the interfaces of a bus with their names.
//! The fields of these types are private, and each constructor checks its arguments, so every value is within its limits. In
//! contracts a frame is an identifier with a payload, a moment and an interface are numbers, and the names of a bus are a list of
//! texts.
//!
//! A frame's `arbitration_key` is a number that orders frames in the same way as the bits by which they compete on the bus. The
//! laws state this order: which frame wins, that exactly one wins if all bits differ, and that only frames with the same identifier
//! and kind can have equal bits.
//!
//! `frame_text` writes an item in the format of candump's logs, and `read_flagged_frame_text` reads it in either case. It returns
//! an item exactly if the text spells one, and no text spells two; `read_frame_text` reads only items without flags. A `Text` is a
//! text with a fixed capacity and no heap memory, to which identifiers, moments, numbers and data can be appended. `read_decimal`
//! and `read_hexadecimal` read numbers, and `read_moment` reads a moment.
#![tactic(auto)]

pub mod arbitration;
pub mod byte_count;
pub mod can_id;
mod digit_writing;
pub mod error_frame;
pub mod fd_flags;
pub mod frame;
pub mod frame_guess;
pub mod frame_texts;
pub mod iface;
pub mod item;
pub mod laws;
pub mod moment;
pub mod names;
pub mod numbers;
pub mod text;

pub use byte_count::count_of;
pub use can_id::{CanId, IdTooLarge};
pub use error_frame::{ClassTooLarge, ErrorFrame};
pub use fd_flags::FdFlags;
pub use frame::{BadFdLength, Frame, TooLong, is_fd_length};
pub use frame_guess::guess_item;
pub use frame_texts::{BadText, FrameText, frame_text, read_flagged_frame_text, read_frame_text};
pub use iface::{Iface, IfaceSet};
pub use item::Item;
pub use moment::{Moment, MomentTooLarge, read_moment};
pub use names::{Names, NamesError, is_name};
pub use numbers::{read_decimal, read_digit, read_hexadecimal};
pub use text::Text;
