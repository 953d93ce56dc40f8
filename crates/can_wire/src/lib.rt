//! Time on the wire: how many bits a frame has with its stuff bits, how many bits an attempt takes, and how long these bits last.
//! The bits are counted as the Bosch CAN Specification 2.0 and ISO 11898-1 define them: a frame is a list of bits, the CRC of a
//! classic frame is the remainder of a long division, and stuffing is a rule over the list. This crate allocates nothing, because
//! bits are counted and not stored. A verdict does not name a bit, so this project chooses how long a failed attempt lasts.
//!
//! [`Wire`] says when attempts begin and end on a bus with bit rates. [`Schedule`] says when the successive attempts of a server's
//! driver or of a bench take place, and [`Load`] says how busy they keep the wire.
#![tactic(auto)]

pub mod attempts;
mod bits;
mod checksum;
mod counter;
pub mod frames;
pub mod laws;
pub mod load;
pub mod rates;
pub mod recent_load;
pub mod schedule;
pub mod timing;
pub mod units;
pub mod wire;
pub mod wire_bits;

pub use attempts::attempt_bits;
pub use frames::frame_bits;
pub use load::Load;
pub use rates::{BadBitRates, Rates};
pub use recent_load::RecentLoad;
pub use schedule::Schedule;
pub use timing::Timing;
pub use wire::Wire;
pub use wire_bits::WireBits;
