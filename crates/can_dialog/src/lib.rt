//! Sessions of the protocol, over any port.
//!
//! A session calls a `Port`. The law of a port is a relation between its state before a call, the call, the reply and the state
//! after the call. `Session` reads pieces of a client's stream, makes the calls for the commands, and writes the texts for the
//! client. Apart from the client's stream, the next call, text and stage depend only on the port's replies: `specs/Turns.antt`
//! specifies the turn of each command. Two laws hold: it makes no difference how the stream is cut into pieces, and a session
//! writes exactly the text of its turns.
#![tactic(auto)]

mod commands;
pub mod delivery;
mod dialog;
pub mod laws;
pub mod names;
mod output;
pub mod port;
pub mod session;
pub mod stage;

pub use delivery::Delivery;
pub use names::put_names;
pub use port::{Port, PortRefusal, rule_reply};
pub use session::{Session, SessionFault};
pub use stage::{Dialog, RawSocket, Stage};
