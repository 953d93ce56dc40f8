ghost use Rattle.std.specs.Prelude.{◌≡◌, []};

use crate::line_words::LineText;
use can_frame::Text;
use std::alloc::Global;

/// The buffers in which lines are spelled, one line after another.
#[derive(Drop)]
pub struct Rooms {
    /// The buffer for a line without filters.
    pub(crate) short: LineText,
    /// The buffer for any other line, of any length.
    pub long: Vec<u8>,
}

impl Rooms {
    /// Returns empty buffers.
    pub fn new(alloc: Global) -> Rooms
        ensures { result.long.items ≡ [] }
    {
        Rooms {
            short: Text::new(),
            long: Vec::new(alloc),
        }
    }
}
