//! The bits of a frame on the wire. Each bit has its field, a mark if it is a stuff bit, and the bit rate at which it is sent.
//!
//! `frame_bits` returns these bits. can_wire defines their values, after the Bosch CAN Specification 2.0 and ISO 11898-1: this
//! crate does not define the CRC or the values after stuffing again. specs/Fields defines the fields of a frame. specs/Marks
//! defines which bits are stuff bits, by counting equal bits as a receiver does.
#![tactic(auto)]

mod bit;
mod checksum;
mod fields;
mod run;
mod sender;
mod sending;
pub mod silence;
mod text;

pub use bit::{Bit, Field};
pub use sending::frame_bits;
pub use text::bits_text;
