//! The numbers in error message frames, with their names in linux/can/error.h. Numbers that no frame of this crate uses are
//! left out.

/// Class: controller problems, given in byte 1.
pub const CAN_ERR_CRTL: u32 = 0x004;
/// Class: protocol violations, given in bytes 2 and 3.
pub const CAN_ERR_PROT: u32 = 0x008;
/// Class: no acknowledgement on transmission.
pub const CAN_ERR_ACK: u32 = 0x020;
/// Class: bus off.
pub const CAN_ERR_BUSOFF: u32 = 0x040;
/// Class: bus error.
pub const CAN_ERR_BUSERROR: u32 = 0x080;
/// Class: the controller was restarted.
pub const CAN_ERR_RESTARTED: u32 = 0x100;
/// Class: the transmit and receive error counts are in bytes 6 and 7.
pub const CAN_ERR_CNT: u32 = 0x200;

/// Byte 1: the receive error count reached the warning level.
pub const CAN_ERR_CRTL_RX_WARNING: u8 = 0x04;
/// Byte 1: the transmit error count reached the warning level.
pub const CAN_ERR_CRTL_TX_WARNING: u8 = 0x08;
/// Byte 1: the receive error count reached the error passive level.
pub const CAN_ERR_CRTL_RX_PASSIVE: u8 = 0x10;
/// Byte 1: the transmit error count reached the error passive level.
pub const CAN_ERR_CRTL_TX_PASSIVE: u8 = 0x20;
/// Byte 1: the controller recovered to error active.
pub const CAN_ERR_CRTL_ACTIVE: u8 = 0x40;

/// Byte 2: unspecified.
pub const CAN_ERR_PROT_UNSPEC: u8 = 0x00;
/// Byte 2: a single bit error.
pub const CAN_ERR_PROT_BIT: u8 = 0x01;
/// Byte 2: a frame format error.
pub const CAN_ERR_PROT_FORM: u8 = 0x02;
/// Byte 2: a bit stuffing error.
pub const CAN_ERR_PROT_STUFF: u8 = 0x04;
/// Byte 2: the error occurred on transmission.
pub const CAN_ERR_PROT_TX: u8 = 0x80;

/// Byte 3: unspecified.
pub const CAN_ERR_PROT_LOC_UNSPEC: u8 = 0x00;
/// Byte 3: the CRC sequence.
pub const CAN_ERR_PROT_LOC_CRC_SEQ: u8 = 0x08;
/// Byte 3: the data section.
pub const CAN_ERR_PROT_LOC_DATA: u8 = 0x0A;
/// Byte 3: the ACK slot.
pub const CAN_ERR_PROT_LOC_ACK: u8 = 0x19;
/// Byte 3: the end of frame.
pub const CAN_ERR_PROT_LOC_EOF: u8 = 0x1A;
/// Byte 3: the ACK delimiter.
pub const CAN_ERR_PROT_LOC_ACK_DEL: u8 = 0x1B;
