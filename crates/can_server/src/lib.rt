//! A server: threads that connect many clients to the buses of a hub.
//!
//! [`serve`] accepts connections at its acceptors. Each connection is a session with two threads and a pass of the bus that it
//! opens. One thread reads the client's input, and the other delivers the items. Each bus has a driver, which makes steps while an
//! interface has a frame to send or is waiting for its restart. At the end the server hands back all passes, and the hub settles
//! them.
//!
//! Two properties of the threads are proved: the server hands back one list of passes for each bus, and a closed server admits no
//! client ([`Clients`]). The sessions are those of can_dialog, each with its own pass. The texts of their replies and items are
//! written in order, each once ([`Batch`]). [`Opening`] recognizes connections that no client would begin, and the server closes
//! them. It is not proved that a peer receives anything, that a wait ends within a limited time, or that no two threads wait for
//! each other.
#![tactic(auto)]

mod accepting;
pub mod acceptor;
pub mod batch;
pub mod clients;
pub mod conn;
mod conversation;
mod delivering;
mod driving;
pub mod given;
pub mod notice;
pub mod opening;
pub mod scribing;
mod server;
pub mod serving;
mod sessions;
mod timed_driving;

pub use acceptor::{Acceptor, Listener};
pub use batch::{Batch, Taken};
pub use can_hub::{Bench, Buses, Hub, HubBus, HubEnd, Leaves, LockedPort, PassPort, SettleFault};
pub use clients::{Clients, NotAdmitted};
pub use conn::Conn;
pub use given::Given;
pub use notice::Notice;
pub use opening::Opening;
pub use scribing::{Keeper, Scribe, ScrollKeeper};
pub use serving::{Clock, serve, serve_with};
