ghost use Rattle.std.specs.Prelude.{◌≡◌, ◌≤◌, ◌<◌, ◌++◌, ◌∷◌, [], vec_len, vec_capacity, IfOk, OnErr, length};
ghost use Rattle.can_bus.specs.Headline.{Headline};
ghost use Rattle.can_bus.specs.Run.{AreAnswers, history_after_all};
ghost use Rattle.can_bus.specs.Legal.{IsLegal};

use crate::bus::Bus;
use can_arbiter::Arbiter;
use can_event::{Attempt, Event, Pending, Received, Reply};
use can_frame::Item;
use can_queue::BoundedQueue;
use std::alloc::Global;
use thiserror::Error;

/// Why a list of events could not be carried out.
#[derive(Debug, Clone, Copy, PartialEq, Eq, Error)]
pub enum RunFault {
    /// Memory for the list of replies was refused.
    #[error("no memory")]
    NoMemory,
}

/// Adds a reply to a list with room for it.
fn note(replies: &mut Vec<Reply>, reply: Reply)
    requires { vec_len replies.old < vec_capacity replies.old }
    ensures items { replies.new.items ≡ replies.old.items ++ reply ∷ [] }
    ensures room { vec_capacity replies.old ≤ vec_capacity replies.new }
{
    // The checker has to see the types inside a reply before a vector stores one.
    let _types: Option<(Attempt, Item, Received)> = None;
    let _ = replies.push(reply);
}

/// Carries out events in order, and returns the reply of each.
///
/// The record is a legal history before and after the call. Each event is added to it with its reply, unless it was refused
/// for a full record or for lack of memory. Each reply is the one that the entries before it require. `RunFault` is
/// returned before the first event is carried out, so nothing has changed.
///
/// Every accepted frame, exactly: for every list of events, a socket gets the data frames of each sending interface in the
/// order in which they were sent. These are exactly the frames that the socket's interface accepted while the socket was
/// open, that passed the socket's filters and options, and that found room. On the sender's own interface they are the
/// frames that were looped back after they were done. Each frame is queued once, and again only for each attempt whose only
/// fault was in the last bit of end of frame. Every lost frame is counted. Nothing is queued after the close.
/// `specs/Headline.antt` states each part.
pub fn run<T: BoundedQueue<Pending>, R: BoundedQueue<Received>, A: Arbiter>(
    bus: &mut Bus<T, R, A>,
    alloc: Global,
    events: &[Event],
) -> Result<Vec<Reply>, RunFault>
    ensures count { IfOk result (λ replies. length replies.items ≡ length events.now) }
    ensures answers { IfOk result (λ replies.
        AreAnswers bus.old.config bus.old.history events.now replies.items) }
    ensures after { IfOk result (λ replies.
        bus.new ≡ record bus.old {
          history = history_after_all events.now replies.items bus.old.history;
        }) }
    ensures was_legal { IsLegal bus.old.config bus.old.history }
    ensures legal { IsLegal bus.new.config bus.new.history }
    ensures headline { Headline bus.new.config bus.new.history }
    ensures err { OnErr result (bus.new ≡ bus.old) }
{
    // Reading the record shows the prover that it is a legal history, before and after.
    let _before = bus.record().len();
    let Ok(mut replies) = Vec::with_capacity(alloc, events.len()) else {
        return Err(RunFault::NoMemory);
    };
    for event in events {
        let reply = bus.answer(alloc, event);
        note(&mut replies, reply);
    }
    let _after = bus.record().len();
    Ok(replies)
}
