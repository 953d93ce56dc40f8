ghost use Rattle.std.specs.Prelude.{◌≡◌, ◌<◌, ◌≤◌, ◌++◌, List, length, vec_capacity, false, Some};
ghost use Rattle.can_event.specs.declared.event.Event.TheVariants as asked;
ghost use Rattle.can_event.specs.declared.attempt.Attempt.TheVariants as attempt;
ghost use Rattle.can_event.specs.declared.reply.Reply.TheVariants as answer;
ghost use Rattle.can_event.specs.Replies.{entry_of, receive_reply, told};
ghost use Rattle.can_frame.specs.Frames.{CanFrame};
ghost use Rattle.can_record.specs.PackedEntry.{entry_in, frames_needed, frame_kept, frames_needed_for, fd_frames, fd_frames_of, fd_frames_of_item, receive_entry, receive_frames, send_entry, tried_entry, IsShort};
ghost use Rattle.can_record.specs.Boxed.{needs_box, is_large};

use crate::attempt_end::AttemptEnd;
use crate::attempt_stamp::AttemptStamp;
use crate::frame_words::frame_words;
use crate::packed_entry::{PackedEntry, PackedFrame};
use crate::verdicts::verdict_set;
use can_event::{Attempt, Event, Opt, Received, Refusal, Reply, SocketId, Tried};
use can_fault::Verdict;
use can_frame::{Frame, Iface, IfaceSet, Item, Moment};

/// Packs an entry that needs no box into 32 bytes. If the entry has an FD frame, it is added at the end of `frames`, which has
/// memory for it.
#[inline(always)]
pub fn pack(frames: &mut Vec<Frame>, event: &Event, reply: &Reply) -> PackedEntry
    requires fits { needs_box event.now reply.now ≡ false }
    requires room { length frames.old.items < vec_capacity frames.old }
    ensures entry { entry_in frames.new.items result ≡ entry_of event.now reply.now }
    ensures within { frames_needed result ≤ length frames.new.items }
    ensures frames { frames.new.items ≡ frames.old.items ++ fd_frames event.now reply.now }
    ensures memory { vec_capacity frames.old ≤ vec_capacity frames.new }
{
    match event {
        Event::Open(iface, capacity) => opened(*iface, *capacity, reply),
        Event::Close(id) => closed(*id, reply),
        // A `SetFilters` event always needs a box.
        Event::SetFilters(_, _) => unreachable!(),
        Event::SetOption(id, option) => option_set(*id, *option, reply),
        Event::Send(id, frame) => sent(frames, *id, frame, reply),
        Event::Receive(id) => received(frames, *id, reply),
        Event::Attempt(moment, verdict) => attempted(frames, *moment, *verdict, reply),
        Event::Restart(iface, moment) => restarted(*iface, *moment, reply),
        Event::Down(iface, moment) => taken_down(*iface, *moment, reply),
    }
}

#[inline(always)]
fn opened(iface: Iface, capacity: u32, reply: &Reply) -> PackedEntry
    requires fits { needs_box (asked.Open iface capacity) reply.now ≡ false }
    ensures entry { (fs : List CanFrame) →
        entry_in fs result ≡ entry_of (asked.Open iface capacity) reply.now }
    ensures within { frames_needed result ≡ 0 }
{
    match reply {
        Reply::Opened(id) => PackedEntry::Opened {
            iface,
            capacity,
            socket: *id,
        },
        Reply::Refused(why) => PackedEntry::OpenRefused {
            iface,
            capacity,
            why: *why,
        },
        _ => unreachable!(),
    }
}

#[inline(always)]
fn closed(id: SocketId, reply: &Reply) -> PackedEntry
    requires fits { needs_box (asked.Close id) reply.now ≡ false }
    ensures entry { (fs : List CanFrame) →
        entry_in fs result ≡ entry_of (asked.Close id) reply.now }
    ensures within { frames_needed result ≡ 0 }
{
    match reply {
        Reply::Closed(counts) => PackedEntry::Closed {
            socket: id,
            counts: *counts,
        },
        Reply::Refused(why) => PackedEntry::CloseRefused {
            socket: id,
            why: *why,
        },
        _ => unreachable!(),
    }
}

#[inline(always)]
fn option_set(id: SocketId, option: Opt, reply: &Reply) -> PackedEntry
    requires fits { needs_box (asked.SetOption id option) reply.now ≡ false }
    ensures entry { (fs : List CanFrame) →
        entry_in fs result ≡ entry_of (asked.SetOption id option) reply.now }
    ensures within { frames_needed result ≡ 0 }
{
    match reply {
        Reply::Done => PackedEntry::OptionSet { socket: id, option },
        Reply::Refused(why) => PackedEntry::OptionRefused {
            socket: id,
            option,
            why: *why,
        },
        _ => unreachable!(),
    }
}

#[inline(always)]
fn restarted(iface: Iface, moment: Moment, reply: &Reply) -> PackedEntry
    requires fits { needs_box (asked.Restart iface moment) reply.now ≡ false }
    ensures entry { (fs : List CanFrame) →
        entry_in fs result ≡ entry_of (asked.Restart iface moment) reply.now }
    ensures within { frames_needed result ≡ 0 }
{
    match reply {
        Reply::Done => PackedEntry::Restarted { iface, moment },
        Reply::Refused(why) => PackedEntry::RestartRefused {
            iface,
            moment,
            why: *why,
        },
        _ => unreachable!(),
    }
}

#[inline(always)]
fn taken_down(iface: Iface, moment: Moment, reply: &Reply) -> PackedEntry
    requires fits { needs_box (asked.Down iface moment) reply.now ≡ false }
    ensures entry { (fs : List CanFrame) →
        entry_in fs result ≡ entry_of (asked.Down iface moment) reply.now }
    ensures within { frames_needed result ≡ 0 }
{
    match reply {
        Reply::Done => PackedEntry::TakenDown { iface, moment },
        Reply::Refused(why) => PackedEntry::DownRefused {
            iface,
            moment,
            why: *why,
        },
        _ => unreachable!(),
    }
}

#[inline(always)]
fn sent(frames: &mut Vec<Frame>, id: SocketId, frame: &Frame, reply: &Reply) -> PackedEntry
    requires fits { needs_box (asked.Send id frame.now) reply.now ≡ false }
    requires room { length frames.old.items < vec_capacity frames.old }
    ensures entry { entry_in frames.new.items result
        ≡ entry_of (asked.Send id frame.now) reply.now }
    ensures within { frames_needed result ≤ length frames.new.items }
    ensures frames { frames.new.items ≡ frames.old.items ++ fd_frames_of frame.now }
    ensures memory { vec_capacity frames.old ≤ vec_capacity frames.new }
{
    match reply {
        Reply::Sent(number) => pack_send(frames, id, frame, Ok(*number)),
        Reply::Refused(why) => pack_send(frames, id, frame, Err(*why)),
        _ => unreachable!(),
    }
}

/// Packs the entry of a send call, which gave a number to the frame or was refused.
#[inline(always)]
pub fn pack_send(
    frames: &mut Vec<Frame>,
    id: SocketId,
    frame: &Frame,
    outcome: Result<u64, Refusal>,
) -> PackedEntry
    requires fits { needs_box (asked.Send id frame.now) (told answer.Sent outcome) ≡ false }
    requires room { length frames.old.items < vec_capacity frames.old }
    ensures entry { entry_in frames.new.items result ≡ send_entry id frame.now outcome }
    ensures within { frames_needed result ≤ length frames.new.items }
    ensures frames { frames.new.items ≡ frames.old.items ++ fd_frames_of frame.now }
    ensures memory { vec_capacity frames.old ≤ vec_capacity frames.new }
{
    match (outcome, pack_frame(frames, frame)) {
        (Ok(number), PackedFrame::Words { word, len, bytes }) => {
            PackedEntry::Sent {
                len,
                socket: id,
                word,
                number: number as u32,
                bytes,
            }
        }
        (Ok(number), PackedFrame::Place(place)) => PackedEntry::FdSent {
            socket: id,
            number: number as u32,
            place,
        },
        (Err(why), PackedFrame::Words { word, len, bytes }) => {
            PackedEntry::SendRefused {
                why,
                len,
                socket: id,
                word,
                bytes,
            }
        }
        (Err(why), PackedFrame::Place(place)) => PackedEntry::FdSendRefused {
            why,
            socket: id,
            place,
        },
    }
}

#[inline(always)]
fn received(frames: &mut Vec<Frame>, id: SocketId, reply: &Reply) -> PackedEntry
    requires fits { needs_box (asked.Receive id) reply.now ≡ false }
    requires room { length frames.old.items < vec_capacity frames.old }
    ensures entry { entry_in frames.new.items result ≡ entry_of (asked.Receive id) reply.now }
    ensures within { frames_needed result ≤ length frames.new.items }
    ensures frames { frames.new.items ≡ frames.old.items ++ fd_frames (asked.Receive id) reply.now }
    ensures memory { vec_capacity frames.old ≤ vec_capacity frames.new }
{
    match reply {
        Reply::Received(Some(received)) => item_received(frames, id, received),
        Reply::Received(None) => PackedEntry::NothingReceived { socket: id },
        Reply::Refused(why) => PackedEntry::ReceiveRefused {
            socket: id,
            why: *why,
        },
        _ => unreachable!(),
    }
}

/// Packs the entry of a receive call, which took an item into `room`, took none, or was refused.
#[inline(always)]
pub fn pack_receive(
    frames: &mut Vec<Frame>,
    id: SocketId,
    outcome: Result<bool, Refusal>,
    room: &Received,
) -> PackedEntry
    requires fits { needs_box (asked.Receive id) (receive_reply room.now outcome) ≡ false }
    requires room { length frames.old.items < vec_capacity frames.old }
    ensures entry { entry_in frames.new.items result ≡ receive_entry id room.now outcome }
    ensures within { frames_needed result ≤ length frames.new.items }
    ensures frames { frames.new.items ≡ frames.old.items ++ receive_frames id room.now outcome }
    ensures memory { vec_capacity frames.old ≤ vec_capacity frames.new }
{
    match outcome {
        Ok(true) => item_received(frames, id, room),
        Ok(false) => PackedEntry::NothingReceived { socket: id },
        Err(why) => PackedEntry::ReceiveRefused { socket: id, why },
    }
}

#[inline(always)]
fn item_received(frames: &mut Vec<Frame>, id: SocketId, received: &Received) -> PackedEntry
    requires fits { is_large received.now.number ≡ false }
    requires room { length frames.old.items < vec_capacity frames.old }
    ensures entry { entry_in frames.new.items result
        ≡ entry_of (asked.Receive id) (answer.Received (Some received.now)) }
    ensures within { frames_needed result ≤ length frames.new.items }
    ensures frames { frames.new.items ≡ frames.old.items ++ fd_frames_of_item received.now.item }
    ensures memory { vec_capacity frames.old ≤ vec_capacity frames.new }
{
    let Received {
        from,
        number,
        moment,
        ..
    } = *received;
    let number = number as u32;
    match &received.item {
        Item::Data(frame) => match pack_frame(frames, frame) {
            PackedFrame::Words { word, len, bytes } => {
                PackedEntry::FrameReceived {
                    from,
                    len,
                    socket: id,
                    word,
                    number,
                    bytes,
                    moment,
                }
            }
            PackedFrame::Place(place) => PackedEntry::FdReceived {
                from,
                socket: id,
                number,
                place,
                moment,
            },
        },
        Item::Error(error) => PackedEntry::ErrorReceived {
            from,
            socket: id,
            number,
            error: *error,
            moment,
        },
    }
}

#[inline(always)]
fn attempted(
    frames: &mut Vec<Frame>,
    moment: Moment,
    verdict: Verdict,
    reply: &Reply,
) -> PackedEntry
    requires fits { needs_box (asked.Attempt moment verdict) reply.now ≡ false }
    requires room { length frames.old.items < vec_capacity frames.old }
    ensures entry { entry_in frames.new.items result
        ≡ entry_of (asked.Attempt moment verdict) reply.now }
    ensures within { frames_needed result ≤ length frames.new.items }
    ensures frames { frames.new.items
        ≡ frames.old.items ++ fd_frames (asked.Attempt moment verdict) reply.now }
    ensures memory { vec_capacity frames.old ≤ vec_capacity frames.new }
{
    match reply {
        Reply::Attempted(Attempt::Idle { restarted }) => PackedEntry::Idle {
            restarted: *restarted,
            verdict,
            moment,
        },
        Reply::Attempted(Attempt::Tried(tried)) => pack_tried(frames, moment, verdict, tried),
        Reply::Refused(why) => PackedEntry::AttemptRefused {
            verdict,
            moment,
            why: *why,
        },
        _ => unreachable!(),
    }
}

/// Packs the entry of an attempt that tried a frame.
#[inline(always)]
pub fn pack_tried(
    frames: &mut Vec<Frame>,
    moment: Moment,
    verdict: Verdict,
    tried: &Tried,
) -> PackedEntry
    requires fits { needs_box (asked.Attempt moment verdict)
        (answer.Attempted (attempt.Tried tried.now)) ≡ false }
    requires room { length frames.old.items < vec_capacity frames.old }
    ensures entry { entry_in frames.new.items result ≡ tried_entry moment verdict tried.now }
    ensures within { frames_needed result ≤ length frames.new.items }
    ensures frames { frames.new.items ≡ frames.old.items ++ fd_frames_of tried.now.frame }
    ensures memory { vec_capacity frames.old ≤ vec_capacity frames.new }
{
    let end = AttemptEnd::new(tried.class, verdict);
    let named = verdict_set(verdict);
    let number = tried.number as u32;
    let Tried {
        winner,
        accepted,
        off,
        restarted,
        ..
    } = *tried;
    match pack_frame(frames, &tried.frame) {
        PackedFrame::Words { word, len, bytes } => {
            let stamp = AttemptStamp::new(moment, winner, len, off);
            PackedEntry::Tried {
                end,
                named,
                word,
                number,
                accepted,
                restarted,
                bytes,
                stamp,
            }
        }
        PackedFrame::Place(place) => PackedEntry::FdTried {
            end,
            winner,
            number,
            named,
            accepted,
            off,
            restarted,
            place,
            moment,
        },
    }
}

/// Packs a frame. An FD frame is added at the end of `frames`.
#[inline(always)]
fn pack_frame(frames: &mut Vec<Frame>, frame: &Frame) -> PackedFrame
    requires room { length frames.old.items < vec_capacity frames.old }
    ensures frame { frame_kept frames.new.items result ≡ frame.now }
    ensures short { IsShort result }
    ensures within { frames_needed_for result ≤ length frames.new.items }
    ensures frames { frames.new.items ≡ frames.old.items ++ fd_frames_of frame.now }
    ensures memory { vec_capacity frames.old ≤ vec_capacity frames.new }
{
    if frame.is_fd() {
        let place = frames.len();
        let _ = frames.push(*frame);
        PackedFrame::Place(place)
    } else {
        let (word, len, bytes) = frame_words(frame);
        PackedFrame::Words { word, len, bytes }
    }
}
