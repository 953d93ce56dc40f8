ghost use Rattle.std.specs.Prelude.{◌≡◌, ◌≤◌, ◌+◌, ◌++◌, ◌∷◌, [], IsTrue, None, Some, codes, decimal, length};
ghost use Rattle.can_attempt.specs.Words.{class_word};
ghost use Rattle.can_event.specs.declared.attempt.Attempt.TheVariants as attempt;
ghost use Rattle.can_event.specs.declared.reply.Reply.TheVariants as reply;
ghost use Rattle.can_record_text.specs.inner.Words.{spaced};
ghost use Rattle.can_record_text.specs.Spelling.{answered_line, event_words, filter_words, moment_word, option_words, refusal_words, reply_words, restarted_words, set_word, spell, verdict_word};

use crate::line_words::{
    LineText, push_class, push_error, push_flag, push_frame, push_mask, push_moment, push_number,
    push_set, push_verdict,
};
use can_attempt::Class;
use can_event::{Attempt, Event, Opt, Received, Refusal, Reply, SocketId, Tried};
use can_fault::Verdict;
use can_filter::Filter;
use can_frame::{Iface, IfaceSet, Item, Moment};

/// Appends the line of an event with this reply, and returns true. If the event sets filters, it returns false, and the
/// contents of `line` are meaningless.
pub(crate) fn push_answered(line: &mut LineText, event: &Event, reply: &Reply) -> bool
    requires { line.old ≡ [] }
    ensures { IsTrue result → line.new ≡ answered_line event.now reply.now [] }
{
    if !push_event(line, event).is_empty() {
        return false;
    }
    push_reply(line, reply);
    true
}

/// Appends the words of an event, each with a space after it. If the event sets filters, it stops before them and returns
/// them.
pub(crate) fn push_event<'a>(line: &mut LineText, event: &'a Event) -> &'a [Filter]
    requires { line.old ≡ [] }
    ensures text { line.new ++ spaced (filter_words result.now) ≡ spaced (event_words event.now) }
    ensures len { length line.new ≤ 166 }
{
    match event {
        Event::Receive(id) => push_receive(line, *id),
        Event::Attempt(moment, verdict) => push_attempt(line, *moment, *verdict),
        Event::Send(id, frame) => {
            push_send(line, *id);
            push_frame(line, frame);
        }
        Event::Open(iface, capacity) => {
            line.push_all(b"open ");
            push_number(line, u64::from(iface.number()), b' ');
            push_number(line, u64::from(*capacity), b' ');
        }
        Event::Close(id) => {
            line.push_all(b"close ");
            push_number(line, u64::from(id.0), b' ');
        }
        Event::SetFilters(id, set) => {
            line.push_all(b"filters ");
            push_number(line, u64::from(id.0), b' ');
            push_number(line, set.filters().len() as u64, b' ');
            return set.filters();
        }
        Event::SetOption(id, option) => {
            line.push_all(b"option ");
            push_number(line, u64::from(id.0), b' ');
            push_option(line, *option);
        }
        Event::Restart(iface, moment) => {
            line.push_all(b"restart ");
            push_number(line, u64::from(iface.number()), b' ');
            push_moment(line, *moment, b' ');
        }
        Event::Down(iface, moment) => {
            line.push_all(b"down ");
            push_number(line, u64::from(iface.number()), b' ');
            push_moment(line, *moment, b' ');
        }
    }
    &[]
}

/// A receive.
pub(crate) fn push_receive(line: &mut LineText, id: SocketId)
    requires { line.old ≡ [] }
    ensures text { line.new ≡ spaced (codes "receive" ∷ decimal id.0 ∷ []) }
    ensures len { length line.new ≤ 29 }
{
    line.push_all(b"receive ");
    push_number(line, u64::from(id.0), b' ');
}

/// Appends the words of a send call, up to its frame.
pub(crate) fn push_send(line: &mut LineText, id: SocketId)
    requires { line.old ≡ [] }
    ensures text { line.new ≡ spaced (codes "send" ∷ decimal id.0 ∷ []) }
    ensures len { length line.new ≤ 26 }
{
    line.push_all(b"send ");
    push_number(line, u64::from(id.0), b' ');
}

/// An attempt.
pub(crate) fn push_attempt(line: &mut LineText, moment: Moment, verdict: Verdict)
    requires { line.old ≡ [] }
    ensures text { line.new ≡
        spaced (codes "attempt" ∷ moment_word moment ∷ verdict_word verdict ∷ []) }
    ensures len { length line.new ≤ 43 }
{
    line.push_all(b"attempt ");
    push_moment(line, moment, b' ');
    push_verdict(line, verdict);
}

/// Appends the name of an option and its value.
fn push_option(line: &mut LineText, option: Opt)
    requires { length line.old + 17 ≤ 392 }
    ensures text { line.new ≡ line.old ++ spaced (option_words option) }
    ensures len { length line.new ≤ length line.old + 17 }
{
    match option {
        Opt::Loopback(on) => {
            line.push_all(b"loopback ");
            push_flag(line, on);
        }
        Opt::RecvOwn(on) => {
            line.push_all(b"recvown ");
            push_flag(line, on);
        }
        Opt::Join(on) => {
            line.push_all(b"join ");
            push_flag(line, on);
        }
        Opt::FdFrames(on) => {
            line.push_all(b"fd ");
            push_flag(line, on);
        }
        Opt::ErrMask(mask) => {
            line.push_all(b"errmask ");
            push_mask(line, mask);
        }
    }
}

/// Appends a reply and the end of the line.
pub(crate) fn push_reply(line: &mut LineText, reply: &Reply)
    requires { length line.old + 225 ≤ 392 }
    ensures { line.new ≡ line.old ++ spell (codes "=" ∷ reply_words reply.now) [] }
{
    match reply {
        Reply::Received(None) => line.push_all(b"= none\n"),
        Reply::Received(Some(received)) => push_received(line, received),
        Reply::Sent(number) => push_sent(line, *number),
        Reply::Attempted(Attempt::Idle { restarted }) => push_idle(line, *restarted),
        Reply::Attempted(Attempt::Tried(tried)) => push_tried(line, tried),
        Reply::Opened(id) => {
            line.push_all(b"= socket ");
            push_number(line, u64::from(id.0), b'\n');
        }
        Reply::Closed(counts) => {
            line.push_all(b"= closed ");
            push_number(line, counts.unread, b' ');
            push_number(line, counts.dropped, b'\n');
        }
        Reply::Done => line.push_all(b"= ok\n"),
        Reply::Refused(why) => push_refusal(line, *why),
    }
}

/// Appends the reply for a received item, and the end of the line.
fn push_received(line: &mut LineText, received: &Received)
    requires { length line.old + 207 ≤ 392 }
    ensures { line.new ≡ line.old ++
        spell (codes "=" ∷ reply_words (reply.Received (Some received.now))) [] }
{
    match &received.item {
        Item::Data(frame) => {
            push_data(line, received.from, received.number);
            push_frame(line, frame);
            push_moment(line, received.moment, b'\n');
        }
        Item::Error(error) => {
            push_error_from(line, received.from);
            push_error(line, *error);
            push_moment(line, received.moment, b'\n');
        }
    }
}

/// Appends the reply for a tried frame, and the end of the line.
fn push_tried(line: &mut LineText, tried: &Tried)
    requires { length line.old + 225 ≤ 392 }
    ensures { line.new ≡ line.old
        ++ spell (codes "=" ∷ reply_words (reply.Attempted (attempt.Tried tried.now))) [] }
{
    push_winner(line, tried.winner, tried.number);
    push_frame(line, &tried.frame);
    push_outcome(
        line,
        tried.class,
        tried.accepted,
        tried.off,
        tried.restarted,
    );
}

/// Appends the interface from which a received frame comes, and the number of the frame.
pub(crate) fn push_data(line: &mut LineText, from: Iface, number: u64)
    requires { length line.old + 49 ≤ 392 }
    ensures text { line.new ≡ line.old ++
        spaced (codes "=" ∷ codes "data" ∷ decimal from ∷ decimal number ∷ []) }
    ensures len { length line.new ≤ length line.old + 49 }
{
    line.push_all(b"= data ");
    push_number(line, u64::from(from.number()), b' ');
    push_number(line, number, b' ');
}

/// Appends the interface from which a received error message frame comes.
pub(crate) fn push_error_from(line: &mut LineText, from: Iface)
    requires { length line.old + 29 ≤ 392 }
    ensures text { line.new ≡ line.old ++
        spaced (codes "=" ∷ codes "error" ∷ decimal from ∷ []) }
    ensures len { length line.new ≤ length line.old + 29 }
{
    line.push_all(b"= error ");
    push_number(line, u64::from(from.number()), b' ');
}

/// Appends the frame number that a send call returned, and the end of the line.
pub(crate) fn push_sent(line: &mut LineText, number: u64)
    requires { length line.old + 30 ≤ 392 }
    ensures { line.new ≡ line.old ++ spell (codes "=" ∷ reply_words (reply.Sent number)) [] }
{
    line.push_all(b"= number ");
    push_number(line, number, b'\n');
}

/// Appends the reply of an attempt that tried no frame, with the interfaces that it restarted, and the end of the line.
pub(crate) fn push_idle(line: &mut LineText, restarted: IfaceSet)
    requires { length line.old + 22 ≤ 392 }
    ensures { line.new ≡ line.old
        ++ spell (codes "=" ∷ reply_words (reply.Attempted (attempt.Idle restarted))) [] }
{
    if restarted.is_empty() {
        line.push_all(b"= idle\n");
    } else {
        line.push_all(b"= idle restarted ");
        push_set(line, restarted, b'\n');
    }
}

/// Appends the interface that sent the tried frame, and the number of the frame.
pub(crate) fn push_winner(line: &mut LineText, winner: Iface, number: u64)
    requires { length line.old + 50 ≤ 392 }
    ensures text { line.new ≡ line.old ++
        spaced (codes "=" ∷ codes "tried" ∷ decimal winner ∷ decimal number ∷ []) }
    ensures len { length line.new ≤ length line.old + 50 }
{
    line.push_all(b"= tried ");
    push_number(line, u64::from(winner.number()), b' ');
    push_number(line, number, b' ');
}

/// Appends the class of an attempt, the interfaces that accepted the frame, those that went bus off and those that were
/// restarted, and the end of the line.
pub(crate) fn push_outcome(
    line: &mut LineText,
    class: Class,
    accepted: IfaceSet,
    off: IfaceSet,
    restarted: IfaceSet,
)
    requires { length line.old + 35 ≤ 392 }
    ensures { line.new ≡ line.old ++
        spell (class_word class ∷ set_word accepted ∷ set_word off ∷ restarted_words restarted) [] }
{
    push_class(line, class);
    push_set(line, accepted, b' ');
    if restarted.is_empty() {
        push_set(line, off, b'\n');
    } else {
        push_set(line, off, b' ');
        line.push_all(b"restarted ");
        push_set(line, restarted, b'\n');
    }
}

/// Appends the name of a refusal, and the end of the line.
fn push_refusal(line: &mut LineText, why: Refusal)
    requires { length line.old + 19 ≤ 392 }
    ensures { line.new ≡ line.old ++ spell (codes "=" ∷ refusal_words why) [] }
{
    match why {
        Refusal::NoInterface => line.push_all(b"= no-interface\n"),
        Refusal::BadCapacity => line.push_all(b"= bad-capacity\n"),
        Refusal::TooManySockets => line.push_all(b"= too-many-sockets\n"),
        Refusal::NoSocket => line.push_all(b"= no-socket\n"),
        Refusal::FdOff => line.push_all(b"= fd-off\n"),
        Refusal::BusOff => line.push_all(b"= bus-off\n"),
        Refusal::NoBuffers => line.push_all(b"= no-buffers\n"),
        Refusal::NotBusOff => line.push_all(b"= not-bus-off\n"),
        Refusal::Down => line.push_all(b"= interface-down\n"),
        // Calls with these two refusals leave no entry.
        Refusal::RecordFull | Refusal::NoMemory => line.push_all(b"=\n"),
    }
}
