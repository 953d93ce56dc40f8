ghost use Rattle.std.specs.Prelude.{◌≡◌};
ghost use Rattle.can_attempt.specs.Words.{class_word};

/// The outcome of an attempt to send a frame.
#[derive(Debug, Clone, Copy, PartialEq, Eq)]
pub enum Class {
    /// The whole frame was sent. It leaves its queue.
    Done,
    /// The receivers have the frame, but the transmitter saw a fault in the last bit of end of frame and sends it again.
    LastBit,
    /// An error flag destroyed the frame for everybody. It is sent again.
    Destroyed,
    /// Nobody acknowledged the frame. It is sent again.
    NoAck,
}

impl Class {
    /// The word for this outcome in records and in the output of the bench. It has at most 9 bytes, all lower-case letters.
    pub fn word(self) -> &'static [u8]
        ensures { result.now ≡ class_word self }
    {
        match self {
            Class::Done => b"done",
            Class::LastBit => b"lastbit",
            Class::Destroyed => b"destroyed",
            Class::NoAck => b"noack",
        }
    }
}
