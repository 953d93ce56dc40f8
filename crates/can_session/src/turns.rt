ghost use Rattle.std.specs.Prelude.{◌≡◌, ◌++◌, [], OnOk, IfOk};
ghost use Rattle.can_dialog.specs.Turns.{greeting};
ghost use Rattle.can_dialog.specs.Sessions.{beginning};
ghost use Rattle.can_session.specs.Benches.{spoken, IsFed, IsDrained, IsEnded};
ghost use Rattle.can_session.specs.inner.Acts.{Adds, done_by};

use crate::bus_port::BusPort;
use crate::line_prefix::{begin_output, end_output};
use crate::order::SessionNumber;
use can_arbiter::IndexArbiter;
use can_bus::{Pending, Received};
use can_dialog::{Session, SessionFault};
use can_frame::Moment;
use can_queue::RingQueue;
use std::alloc::{AllocError, Global};

/// The port of a bench's bus.
pub type BenchPort = BusPort<RingQueue<Pending>, RingQueue<Received>, IndexArbiter>;

/// An act that a line requests from a session.
#[derive(Clone, Copy)]
pub enum Act<'a> {
    /// The session is fed these bytes.
    Feed(&'a [u8]),
    /// The session receives items until no item is left.
    Drain,
    /// The session ends.
    End,
}

/// Starts a session with this number and appends its first output.
pub fn start_session(
    alloc: Global,
    capacity: u32,
    number: SessionNumber,
    said: &mut Vec<u8>,
) -> Result<Session, AllocError>
    requires { said.old.items ≡ [] }
    ensures { IfOk result (λ s.
        (s ≡ beginning capacity) × (said.new.items ≡ spoken number greeting)) }
{
    let begun = begin_output(said, number)?;
    let session = greeted(alloc, capacity, said)?;
    end_output(said, begun)?;
    Ok(session)
}

/// Returns a new session and appends its greeting.
fn greeted(alloc: Global, capacity: u32, said: &mut Vec<u8>) -> Result<Session, AllocError>
    ensures { IfOk result (λ s.
        (s ≡ beginning capacity) × (said.new.items ≡ said.old.items ++ greeting)) }
{
    let mut session = Session::new(alloc, capacity)?;
    match session.greet(said) {
        Ok(()) => Ok(session),
        Err(_) => Err(AllocError),
    }
}

/// Performs one act of a session and appends the session's output.
#[inline(always)]
pub fn carry_out(
    session: &mut Session,
    alloc: Global,
    act: Act<'_>,
    moment: Moment,
    port: &mut BenchPort,
    said: &mut Vec<u8>,
) -> Result<(), AllocError>
    ensures { OnOk result (Adds (done_by act.entry moment)
        session.old port.old said.old.items session.new port.new said.new.items) }
{
    match act {
        Act::Feed(bytes) => feed(session, alloc, bytes, moment, port, said),
        Act::Drain => drain(session, port, said),
        Act::End => {
            end(session, port);
            Ok(())
        }
    }
}

/// Feeds a piece of input to a session and appends the session's output. A session that has ended ignores the input.
fn feed(
    session: &mut Session,
    alloc: Global,
    bytes: &[u8],
    moment: Moment,
    port: &mut BenchPort,
    said: &mut Vec<u8>,
) -> Result<(), AllocError>
    ensures { OnOk result (Adds (IsFed moment bytes.now)
        session.old port.old said.old.items session.new port.new said.new.items) }
{
    match session.feed(alloc, bytes, moment, port, said) {
        Ok(()) => Ok(()),
        Err(SessionFault::Ended) => Ok(()),
        Err(_) => Err(AllocError),
    }
}

/// Delivers items to a session until there are no more, and appends the session's output.
fn drain(session: &mut Session, port: &mut BenchPort, said: &mut Vec<u8>) -> Result<(), AllocError>
    ensures { OnOk result (Adds IsDrained
        session.old port.old said.old.items session.new port.new said.new.items) }
{
    loop {
        match session.deliver(port, said) {
            Ok(true) => {}
            Ok(false) => return Ok(()),
            Err(SessionFault::Ended) => return Ok(()),
            Err(_) => return Err(AllocError),
        }
    }
}

/// Ends a session.
fn end(session: &mut Session, port: &mut BenchPort)
    ensures { IsEnded session.old port.old [] session.new port.new }
{
    let _ = session.end(port);
}
