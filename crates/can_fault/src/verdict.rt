use can_frame::IfaceSet;

/// A fault that every interface sees, because the transmitter's error flag destroys the frame for all of them.
#[derive(Debug, Clone, Copy, PartialEq, Eq)]
pub enum GlobalKind {
    /// The transmitter read back a bit that differs from the bit it had sent.
    Bit,
    /// A bit in a fixed part of the frame was wrong.
    Form,
}

/// A fault that only the interfaces in the verdict's set see.
#[derive(Debug, Clone, Copy, PartialEq, Eq)]
pub enum LocalKind {
    /// There were six equal bits in a row, but stuffing allows only five.
    Stuff,
    /// The received checksum was wrong.
    Crc,
    /// A bit in a fixed part of the frame was wrong.
    Form,
}

/// The faults that strike one attempt to send a frame.
#[derive(Debug, Clone, Copy, PartialEq, Eq)]
pub enum Verdict {
    /// No fault.
    Good,
    /// A fault for the whole bus.
    Global(GlobalKind),
    /// A fault that strikes only the receivers in this set.
    Local(IfaceSet, LocalKind),
    /// Only the transmitter sees a fault, in the last bit of end of frame. The receivers already have the frame, and it is sent
    /// again.
    LastBit,
}
