//! The protocol between a session and its client, modelled on the raw mode of socketcand.
//!
//! A client's bytes arrive in pieces that may end anywhere. `Reader` turns them into messages, which depend only on the bytes and
//! not on the cuts. `Command::read` returns the command of a message in the session's mode, or the first fault of the message.
//! `reply_text` and `item_text` write replies and received items for a client, byte for byte as defined in specs/Spelling.
//!
//! Three laws say that no information is lost. A stream gives the same messages however it is cut. The text of a command is read
//! back as that command. Different items and replies have different texts.
#![tactic(auto)]

pub mod answer;
mod arguments;
pub mod client_words;
pub mod command;
pub mod fault;
mod filtering;
pub mod laws;
pub mod message;
mod pairs;
pub mod reader;
mod scanning;
mod sending;
pub mod spelling;
mod stored;
pub mod texts;
mod usual_sends;
mod verb;
mod words;

pub use answer::{Answer, BusLoad, Cause, Origin};
pub use client_words::{ClientWords, WantedName, WantedRule};
pub use command::{Command, Mode};
pub use fault::ProtoFault;
pub use message::{Incoming, Message};
pub use reader::Reader;
pub use spelling::{item_text, push_item, push_item_from, refusal_text, reply_text};
pub use texts::{ItemText, Text};
