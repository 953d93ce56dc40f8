/// A field of a frame, named as in the Bosch CAN Specification 2.0 and ISO 11898-1.
#[derive(Debug, Clone, Copy, PartialEq, Eq)]
pub enum Field {
    /// Start of frame, SOF.
    StartOfFrame,
    /// The 11 bits of the identifier, or the upper 11 bits of an extended identifier.
    Identifier,
    /// The recessive SRR bit of an extended frame, sent in place of RTR.
    SubstituteRemote,
    /// The IDE bit: recessive if the identifier has 29 bits.
    IdentifierExtension,
    /// The lower 18 bits of an extended identifier.
    ExtendedIdentifier,
    /// The RTR bit: recessive in a classic remote frame.
    RemoteRequest,
    /// The RRS bit of an FD frame, sent in place of RTR.
    RemoteSubstitution,
    /// The reserved bits of a classic frame: r1 and r0, or only r0.
    Reserved,
    /// The FDF bit, recessive in an FD frame.
    FdFormat,
    /// The reserved bit of an FD frame, res.
    FdReserved,
    /// The BRS bit: recessive if an FD frame switches to the data bit rate.
    BitRateSwitch,
    /// The ESI bit: recessive if the sender of an FD frame is error passive.
    ErrorState,
    /// The data length code, DLC.
    LengthCode,
    /// The data bytes.
    Data,
    /// The stuff count of an FD frame, with its parity bit.
    StuffCount,
    /// The CRC sequence.
    Crc,
    /// The recessive bit after the CRC sequence.
    CrcDelimiter,
    /// The bit in which receivers acknowledge the frame with a dominant level.
    AckSlot,
    /// The recessive bit after the ACK slot.
    AckDelimiter,
    /// End of frame, EOF.
    EndOfFrame,
    /// The recessive bits between two frames.
    Intermission,
}

/// One bit that the sender of a frame sends.
#[derive(Debug, Clone, Copy, PartialEq, Eq)]
pub struct Bit {
    /// The field that the bit belongs to. A stuff bit has the field of the bit before it. A fixed stuff bit has the field of the
    /// bit after it.
    pub field: Field,
    /// True for a recessive bit (1), which a dominant bit (0) overwrites.
    pub is_recessive: bool,
    /// True for a stuff bit.
    pub is_stuff: bool,
    /// True if the bit is sent at the data bit rate, false at the nominal bit rate.
    pub is_fast: bool,
}
