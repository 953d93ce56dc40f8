ghost use Rattle.std.specs.Prelude.{◌≡◌, ◌+◌, ◌≤◌, reverse, length, slice_get, IfOk, OnOk};
ghost use Rattle.can_event.specs.declared.reply.Reply.TheVariants as reply;
ghost use Rattle.can_audit.specs.Histories.{Yields, ReturnsList};
ghost use Rattle.can_bus.specs.Transmit.{sent_by, sent_after, gone_count, gone_after, head_of};

use crate::sockets::{options_of, sockets_of};
use can_attempt::Class;
use can_bus::{Attempt, Entry, Event, Pending, Reply};
use can_frame::Iface;
use std::alloc::{AllocError, Global};

// Computes the transmit queues of a bus's interfaces from its entries.

/// If an entry accepts a frame for sending on an interface, adds the frame.
fn note_sent(
    alloc: Global,
    past: &[Entry],
    entry: &Entry,
    iface: Iface,
    sent: &mut Vec<Pending>,
) -> Result<(), AllocError>
    ensures { OnOk result (sent.new.items ≡
        sent_after (reverse past.now) iface entry.now.event entry.now.reply sent.old.items) }
{
    match &entry.event {
        Event::Send(id, frame) => {
            if matches!(&entry.reply, Reply::Sent(_))
                && sockets_of(alloc, past)?.iface_of(*id) == iface
            {
                let loopback = options_of(past, *id).loopback;
                sent.push(Pending {
                    frame: *frame,
                    socket: *id,
                    loopback,
                })?;
            }
        }
        _ => {}
    }
    Ok(())
}

/// Returns the frames that were accepted for sending on an interface, in order.
pub fn sent_by(alloc: Global, past: &[Entry], iface: Iface) -> Result<Vec<Pending>, AllocError>
    ensures { ReturnsList result (sent_by (reverse past.now) iface) }
{
    let mut sent = Vec::new(alloc);
    for k in 0..past.len() {
        note_sent(alloc, &past[..k], &past[k], iface, &mut sent)?;
    }
    Ok(sent)
}

/// Returns how many frames have left the transmit queue of an interface after one more entry.
fn gone_after(
    alloc: Global,
    past: &[Entry],
    entry: &Entry,
    iface: Iface,
    before: usize,
) -> Result<usize, AllocError>
    requires { before ≤ length past.now }
    ensures gone { Yields result
        (gone_after entry.now.event entry.now.reply iface
        (length (sent_by (reverse past.now) iface)) before) }
    ensures few { IfOk result (λ n. n ≤ length past.now + 1) }
{
    match &entry.reply {
        Reply::Attempted(Attempt::Tried(tried)) => {
            if tried.off.contains(iface) {
                return Ok(sent_by(alloc, past, iface)?.len());
            }
            if tried.winner == iface && tried.class == Class::Done {
                Ok(before + 1)
            } else {
                Ok(before)
            }
        }
        Reply::Done => gone_down(alloc, past, &entry.event, iface, before),
        _ => Ok(before),
    }
}

/// Returns how many frames have left the transmit queue of an interface after an event with the reply `Done`. If the event takes
/// the interface down, all frames have left.
fn gone_down(
    alloc: Global,
    past: &[Entry],
    event: &Event,
    iface: Iface,
    before: usize,
) -> Result<usize, AllocError>
    requires { before ≤ length past.now }
    ensures gone { Yields result
        (gone_after event.now reply.Done iface (length (sent_by (reverse past.now) iface)) before) }
    ensures few { IfOk result (λ n. n ≤ length past.now + 1) }
{
    match event {
        Event::Down(down, _) if *down == iface => Ok(sent_by(alloc, past, iface)?.len()),
        _ => Ok(before),
    }
}

/// Returns how many frames have left the transmit queue of an interface.
pub fn gone_count(alloc: Global, past: &[Entry], iface: Iface) -> Result<usize, AllocError>
    ensures { Yields result (gone_count (reverse past.now) iface) }
{
    let mut gone = 0;
    for k in 0..past.len() {
        gone = gone_after(alloc, &past[..k], &past[k], iface, gone)?;
    }
    Ok(gone)
}

/// Returns the frame with this number, if there is one.
pub fn frame_at(sent: &[Pending], number: usize) -> Option<Pending>
    ensures { result ≡ slice_get sent.now number }
{
    sent.get(number).copied()
}

/// Returns the oldest frame in the transmit queue of an interface.
pub fn head_of(alloc: Global, past: &[Entry], iface: Iface) -> Result<Option<Pending>, AllocError>
    ensures { Yields result (head_of (reverse past.now) iface) }
{
    let gone = gone_count(alloc, past, iface)?;
    let sent = sent_by(alloc, past, iface)?;
    Ok(frame_at(&sent, gone))
}
