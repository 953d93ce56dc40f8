ghost use Rattle.std.specs.Prelude.{◌≡◌};
ghost use Rattle.can_record_text.specs.inner.Reading.{with_rest, class_at, refusal_in, closed_at, data_at, error_at, restarted_at, tried_at, fixed_in, reply_at};

use crate::fields::{
    frame_field, iface_field, item_field, long_field, moment_field, set_field, set_from,
    socket_field,
};
use crate::words::{begins, next_word, same_word};
use can_attempt::Class;
use can_event::{Attempt, Closed, Received, Refusal, Reply, Tried};
use can_frame::{IfaceSet, Item, Moment};

/// Reads a reply. `moment` is the moment of the attempt, or `None` if the event is not an attempt.
#[tactic(auto, unfolding(crate::specs::inner::Reading::reply_at))]
pub fn reply_field(moment: Option<Moment>, text: &[u8]) -> Option<(Reply, &[u8])>
    ensures { with_rest result ≡ reply_at moment text.now }
{
    let (word, rest) = next_word(text);
    if same_word(word, b"number") {
        let (number, rest) = long_field(rest)?;
        return Some((Reply::Sent(number), rest));
    }
    if same_word(word, b"data") {
        return data_field(rest);
    }
    if same_word(word, b"error") {
        return error_field(rest);
    }
    if same_word(word, b"idle") {
        let (restarted, rest) = restarted_field(text)?;
        return Some((Reply::Attempted(Attempt::Idle { restarted }), rest));
    }
    if same_word(word, b"tried") {
        return tried_field(moment?, rest);
    }
    if same_word(word, b"socket") {
        let (id, rest) = socket_field(rest)?;
        return Some((Reply::Opened(id), rest));
    }
    if same_word(word, b"closed") {
        return closed_field(rest);
    }
    let reply = fixed_reply(word)?;
    Some((reply, rest))
}

/// Returns the reply that this single word spells.
#[tactic(auto, unfolding(crate::specs::inner::Reading::fixed_in))]
fn fixed_reply(word: &[u8]) -> Option<Reply>
    ensures { result ≡ fixed_in word.now }
{
    if same_word(word, b"ok") {
        return Some(Reply::Done);
    }
    if same_word(word, b"none") {
        return Some(Reply::Received(None));
    }
    let why = refusal_of(word)?;
    Some(Reply::Refused(why))
}

/// Reads the counts of a closed socket.
#[tactic(auto, unfolding(crate::specs::inner::Reading::closed_at))]
fn closed_field(text: &[u8]) -> Option<(Reply, &[u8])>
    ensures { with_rest result ≡ closed_at text.now }
{
    let (unread, rest) = long_field(text)?;
    let (dropped, rest) = long_field(rest)?;
    Some((Reply::Closed(Closed { unread, dropped }), rest))
}

/// Reads the reply for a received frame.
#[tactic(auto, unfolding(crate::specs::inner::Reading::data_at))]
fn data_field(text: &[u8]) -> Option<(Reply, &[u8])>
    ensures { with_rest result ≡ data_at text.now }
{
    let Some((from, rest)) = iface_field(text) else {
        return None;
    };
    let (number, rest) = long_field(rest)?;
    let Some((frame, rest)) = frame_field(rest) else {
        return None;
    };
    let Some((moment, rest)) = moment_field(rest) else {
        return None;
    };
    let received = Received {
        item: Item::Data(frame),
        from,
        number,
        moment,
    };
    Some((Reply::Received(Some(received)), rest))
}

/// Reads the reply for a received error message frame.
#[tactic(auto, unfolding(crate::specs::inner::Reading::error_at))]
fn error_field(text: &[u8]) -> Option<(Reply, &[u8])>
    ensures { with_rest result ≡ error_at text.now }
{
    let Some((from, rest)) = iface_field(text) else {
        return None;
    };
    let Some((item, rest)) = item_field(rest) else {
        return None;
    };
    let Some((moment, rest)) = moment_field(rest) else {
        return None;
    };
    let received = Received {
        item,
        from,
        number: 0,
        moment,
    };
    Some((Reply::Received(Some(received)), rest))
}

/// Reads the reply of an attempt at this moment that tried a frame.
#[tactic(auto, unfolding(crate::specs::inner::Reading::tried_at))]
fn tried_field(moment: Moment, text: &[u8]) -> Option<(Reply, &[u8])>
    ensures { with_rest result ≡ tried_at moment text.now }
{
    let Some((winner, rest)) = iface_field(text) else {
        return None;
    };
    let (number, rest) = long_field(rest)?;
    let Some((frame, rest)) = frame_field(rest) else {
        return None;
    };
    let (class, rest) = class_field(rest)?;
    let (accepted, rest) = set_field(rest)?;
    let (off, _) = set_field(rest)?;
    let (restarted, rest) = restarted_field(rest)?;
    let tried = Tried {
        moment,
        winner,
        number,
        frame,
        class,
        accepted,
        off,
        restarted,
    };
    Some((Reply::Attempted(Attempt::Tried(tried)), rest))
}

/// Reads the interfaces that an attempt restarted, after the first word of the text. There are none if the line ends after
/// that word.
#[tactic(auto, unfolding(crate::specs::inner::Reading::restarted_at))]
fn restarted_field(text: &[u8]) -> Option<(IfaceSet, &[u8])>
    ensures { with_rest result ≡ restarted_at text.now }
{
    let (word, rest) = next_word(text);
    let past = &text[word.len()..];
    if begins(past, b" restarted ") {
        return set_from(11, past);
    }
    Some((IfaceSet::empty(), rest))
}

/// Reads the class of an attempt.
#[tactic(auto, unfolding(crate::specs::inner::Reading::class_at))]
fn class_field(text: &[u8]) -> Option<(Class, &[u8])>
    ensures { with_rest result ≡ class_at text.now }
{
    let (word, rest) = next_word(text);
    if same_word(word, Class::Done.word()) {
        return Some((Class::Done, rest));
    }
    if same_word(word, Class::LastBit.word()) {
        return Some((Class::LastBit, rest));
    }
    if same_word(word, Class::Destroyed.word()) {
        return Some((Class::Destroyed, rest));
    }
    if same_word(word, Class::NoAck.word()) {
        return Some((Class::NoAck, rest));
    }
    None
}

/// Returns the refusal with this name.
#[tactic(auto, unfolding(crate::specs::inner::Reading::refusal_in))]
fn refusal_of(word: &[u8]) -> Option<Refusal>
    ensures { result ≡ refusal_in word.now }
{
    if same_word(word, b"no-interface") {
        return Some(Refusal::NoInterface);
    }
    if same_word(word, b"bad-capacity") {
        return Some(Refusal::BadCapacity);
    }
    if same_word(word, b"too-many-sockets") {
        return Some(Refusal::TooManySockets);
    }
    if same_word(word, b"no-socket") {
        return Some(Refusal::NoSocket);
    }
    if same_word(word, b"fd-off") {
        return Some(Refusal::FdOff);
    }
    if same_word(word, b"bus-off") {
        return Some(Refusal::BusOff);
    }
    if same_word(word, b"no-buffers") {
        return Some(Refusal::NoBuffers);
    }
    if same_word(word, b"not-bus-off") {
        return Some(Refusal::NotBusOff);
    }
    if same_word(word, b"interface-down") {
        return Some(Refusal::Down);
    }
    None
}
