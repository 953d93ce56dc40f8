ghost use Rattle.std.specs.Prelude.{◌≡◌, ◌≤◌, length};
ghost use Rattle.can_record.specs.PackedEntry.{entry_in, frames_needed, IsSmall, tried_in};

use crate::attempt_end::AttemptEnd;
use crate::attempt_stamp::AttemptStamp;
use crate::frame_words::{IdWord, frame_in};
use crate::packed_entry::PackedEntry;
use can_event::{Attempt, Event, Received, Reply, Tried};
use can_frame::{Frame, IfaceSet, Item};

/// Returns the event of a packed entry, whose FD frame is in this list.
pub fn event_in(frames: &[Frame], kept: &PackedEntry) -> Event
    requires small { IsSmall kept.now }
    requires within { frames_needed kept.now ≤ length frames.now }
    ensures { result ≡ (entry_in frames.now kept.now).event }
{
    match kept {
        PackedEntry::Opened {
            iface,
            capacity,
            ..
        } => Event::Open(*iface, *capacity),
        PackedEntry::OpenRefused {
            iface,
            capacity,
            ..
        } => Event::Open(*iface, *capacity),
        PackedEntry::Closed { socket, .. } => Event::Close(*socket),
        PackedEntry::CloseRefused { socket, .. } => Event::Close(*socket),
        PackedEntry::OptionSet { socket, option } => Event::SetOption(*socket, *option),
        PackedEntry::OptionRefused { socket, option, .. } => Event::SetOption(*socket, *option),
        PackedEntry::Sent {
            len,
            socket,
            word,
            bytes,
            ..
        } => Event::Send(*socket, frame_in(*word, *len, bytes)),
        PackedEntry::FdSent { socket, place, .. } => Event::Send(*socket, frames[*place]),
        PackedEntry::SendRefused {
            len,
            socket,
            word,
            bytes,
            ..
        } => { Event::Send(*socket, frame_in(*word, *len, bytes)) }
        PackedEntry::FdSendRefused { socket, place, .. } => Event::Send(*socket, frames[*place]),
        PackedEntry::NothingReceived { socket } => Event::Receive(*socket),
        PackedEntry::FrameReceived { socket, .. } => Event::Receive(*socket),
        PackedEntry::FdReceived { socket, .. } => Event::Receive(*socket),
        PackedEntry::ErrorReceived { socket, .. } => Event::Receive(*socket),
        PackedEntry::ReceiveRefused { socket, .. } => Event::Receive(*socket),
        PackedEntry::Idle {
            verdict,
            moment,
            ..
        } => Event::Attempt(*moment, *verdict),
        PackedEntry::Tried {
            end,
            named,
            stamp,
            ..
        } => { Event::Attempt(stamp.moment(), end.verdict(*named)) }
        PackedEntry::FdTried {
            end,
            named,
            moment,
            ..
        } => { Event::Attempt(*moment, end.verdict(*named)) }
        PackedEntry::AttemptRefused {
            verdict,
            moment,
            ..
        } => Event::Attempt(*moment, *verdict),
        PackedEntry::Restarted { iface, moment } => Event::Restart(*iface, *moment),
        PackedEntry::RestartRefused { iface, moment, .. } => Event::Restart(*iface, *moment),
        PackedEntry::TakenDown { iface, moment } => Event::Down(*iface, *moment),
        PackedEntry::DownRefused { iface, moment, .. } => Event::Down(*iface, *moment),
        PackedEntry::Boxed(_) => unreachable!(),
    }
}

/// Returns the reply of a packed entry, whose FD frame is in this list.
pub fn reply_in(frames: &[Frame], kept: &PackedEntry) -> Reply
    requires within { frames_needed kept.now ≤ length frames.now }
    ensures { result ≡ (entry_in frames.now kept.now).reply }
{
    match kept {
        PackedEntry::Opened { socket, .. } => Reply::Opened(*socket),
        PackedEntry::OpenRefused { why, .. } => Reply::Refused(*why),
        PackedEntry::Closed { counts, .. } => Reply::Closed(*counts),
        PackedEntry::CloseRefused { why, .. } => Reply::Refused(*why),
        PackedEntry::OptionSet { .. } => Reply::Done,
        PackedEntry::OptionRefused { why, .. } => Reply::Refused(*why),
        PackedEntry::Sent { number, .. } => Reply::Sent(u64::from(*number)),
        PackedEntry::FdSent { number, .. } => Reply::Sent(u64::from(*number)),
        PackedEntry::SendRefused { why, .. } => Reply::Refused(*why),
        PackedEntry::FdSendRefused { why, .. } => Reply::Refused(*why),
        PackedEntry::NothingReceived { .. } => Reply::Received(None),
        PackedEntry::FrameReceived {
            from,
            len,
            word,
            number,
            bytes,
            moment,
            ..
        } => {
            Reply::Received(Some(Received {
                item: Item::Data(frame_in(*word, *len, bytes)),
                from: *from,
                number: u64::from(*number),
                moment: *moment,
            }))
        }
        PackedEntry::FdReceived {
            from,
            number,
            place,
            moment,
            ..
        } => Reply::Received(Some(Received {
            item: Item::Data(frames[*place]),
            from: *from,
            number: u64::from(*number),
            moment: *moment,
        })),
        PackedEntry::ErrorReceived {
            from,
            number,
            error,
            moment,
            ..
        } => Reply::Received(Some(Received {
            item: Item::Error(*error),
            from: *from,
            number: u64::from(*number),
            moment: *moment,
        })),
        PackedEntry::ReceiveRefused { why, .. } => Reply::Refused(*why),
        PackedEntry::Idle { restarted, .. } => Reply::Attempted(Attempt::Idle {
            restarted: *restarted,
        }),
        PackedEntry::Tried {
            end,
            word,
            number,
            accepted,
            restarted,
            bytes,
            stamp,
            ..
        } => {
            let words = (*end, *word, *number);
            Reply::Attempted(Attempt::Tried(tried_in(words, *accepted, *restarted, bytes, *stamp)))
        }
        PackedEntry::FdTried {
            end,
            winner,
            number,
            accepted,
            off,
            restarted,
            place,
            moment,
            ..
        } => {
            Reply::Attempted(Attempt::Tried(Tried {
                moment: *moment,
                winner: *winner,
                number: u64::from(*number),
                frame: frames[*place],
                class: end.class(),
                accepted: *accepted,
                off: *off,
                restarted: *restarted,
            }))
        }
        PackedEntry::AttemptRefused { why, .. } => Reply::Refused(*why),
        PackedEntry::Restarted { .. } => Reply::Done,
        PackedEntry::RestartRefused { why, .. } => Reply::Refused(*why),
        PackedEntry::TakenDown { .. } => Reply::Done,
        PackedEntry::DownRefused { why, .. } => Reply::Refused(*why),
        PackedEntry::Boxed(entry) => entry.reply,
    }
}

/// Returns an attempt that tried a frame other than an FD frame, from the fields of its packed entry. `words` are its end, its
/// identifier word and the frame's number.
fn tried_in(
    words: (AttemptEnd, IdWord, u32),
    accepted: IfaceSet,
    restarted: IfaceSet,
    bytes: &[u8; 8],
    stamp: AttemptStamp,
) -> Tried
    ensures { result ≡ tried_in words.0 words.1 words.2 accepted restarted bytes.now stamp }
{
    let (end, word, number) = words;
    Tried {
        moment: stamp.moment(),
        winner: stamp.winner(),
        number: u64::from(number),
        frame: frame_in(word, stamp.len(), bytes),
        class: end.class(),
        accepted,
        off: stamp.off(),
        restarted,
    }
}
