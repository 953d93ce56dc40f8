ghost use Rattle.std.specs.Prelude.{◌≡◌, ◌≤◌, ◌<◌, ◌+◌, ◌++◌, [], length, true, codes};
ghost use Rattle.std.specs.Fmt.{decimal};
ghost use Rattle.can_frame.specs.Frames.{is_remote};
ghost use Rattle.can_proto.specs.Spelling.{class_width, class_text, body_text, data_front, fd_word, fd_front, remote_front, frame_front, error_text, item_text, origin_text, item_text_from, stats_text, state_word, status_text, load_text, answer_text};
ghost use Rattle.can_proto.specs.declared.answer.Answer.TheVariants.{Refused};

use crate::answer::{Answer, BusLoad, Cause, Origin};
use crate::texts::{ItemText, Text, push_next};
use can_confine::{Counters, State};
use can_event::{IfaceStats, SocketStats};
use can_frame::{ErrorFrame, FdFlags, Frame, Item, Moment};

/// Returns the text of an item that a client's socket received. If `errdata` is true, the text of an error message
/// frame includes its data.
pub fn item_text(item: Item, moment: Moment, errdata: bool) -> ItemText
    ensures text { result ≡ item_text errdata item moment }
    ensures short { length result ≤ 170 }
{
    let mut text = ItemText::new();
    push_item(&mut text, &item, moment, errdata);
    text
}

/// Writes the text of an item, as `item_text` returns it, into an empty buffer.
pub fn push_item(text: &mut ItemText, item: &Item, moment: Moment, errdata: bool)
    requires { text.old ≡ [] }
    ensures text { text.new ≡ item_text errdata item.now moment }
    ensures short { length text.new ≤ 170 }
{
    match item {
        Item::Data(frame) => {
            push_frame(text, frame, moment);
            text.push_all(b" >");
        }
        Item::Error(error) => push_error(text, *error, moment, errdata),
    }
}

/// Writes the text of an item, as `item_text` returns it, into an empty buffer. The origin of a frame comes before the closing
/// ` >`.
#[inline(never)]
pub fn push_item_from(
    text: &mut ItemText,
    item: &Item,
    moment: Moment,
    errdata: bool,
    origin: Origin,
)
    requires { text.old ≡ [] }
    ensures text { text.new ≡ item_text_from errdata origin item.now moment }
    ensures short { length text.new ≤ 197 }
{
    match item {
        Item::Data(frame) => {
            push_frame(text, frame, moment);
            push_origin(text, origin);
            text.push_all(b" >");
        }
        Item::Error(error) => push_error(text, *error, moment, errdata),
    }
}

/// Adds the origin of a frame.
fn push_origin(text: &mut ItemText, origin: Origin)
    requires { length text.old + 27 ≤ 200 }
    ensures text { text.new ≡ text.old ++ origin_text origin }
    ensures len { length text.new ≤ length text.old + 27 }
{
    match origin {
        Origin::Same(number) => {
            text.push_all(b" same ");
            text.push_count(number);
        }
        Origin::Other(number) => {
            text.push_all(b" other ");
            text.push_count(number);
        }
    }
}

/// Returns the text of a reply.
pub fn reply_text(answer: Answer) -> Text
    ensures { result ≡ answer_text answer }
{
    match answer {
        Answer::Greeting => fixed_text(b"< hi >"),
        Answer::Done => fixed_text(b"< ok >"),
        Answer::Echo => fixed_text(b"< echo >"),
        Answer::Stats(socket, iface) => stats_text(socket, iface),
        Answer::Status(counters) => status_text(counters),
        Answer::Load(load) => load_text(load),
        Answer::Sent(number) => count_text(b"< ack", number),
        Answer::Faults(left) => count_text(b"< faults", left),
        Answer::Closing(closed) => {
            let mut text = fixed_text(b"< closed");
            push_next(&mut text, closed.unread);
            push_next(&mut text, closed.dropped);
            text.push_all(b" >");
            text
        }
        Answer::Refused(cause) => fixed_text(refusal_text(cause).as_bytes()),
    }
}

/// Returns a text that consists of a word and a number.
fn count_text(word: &[u8], number: u64) -> Text
    requires { length word.now ≤ 200 }
    ensures { result ≡ word.now ++ codes " " ++ decimal number ++ codes " >" }
{
    let mut text = fixed_text(word);
    push_next(&mut text, number);
    text.push_all(b" >");
    text
}

/// Returns the text of a refusal, as `reply_text` does, in a buffer of the type for items.
pub fn refusal_text(cause: Cause) -> ItemText
    ensures { result ≡ answer_text (Refused cause) }
{
    let mut text = ItemText::new();
    text.push_all(b"< error ");
    text.push_all(cause.text());
    text.push_all(b" >");
    text
}

/// Returns a text that consists of these bytes.
fn fixed_text(bytes: &[u8]) -> Text
    requires { length bytes.now ≤ 256 }
    ensures { result ≡ bytes.now }
{
    let mut text = Text::new();
    text.push_all(bytes);
    text
}

/// Returns the number of hexadecimal digits of an error class, which is at least 3.
fn class_width(class: u32) -> usize
    ensures width { result ≡ class_width class }
    ensures most { result ≤ 8 }
{
    if class < 0x1000 {
        3
    } else if class < 0x1_0000 {
        4
    } else if class < 0x10_0000 {
        5
    } else if class < 0x100_0000 {
        6
    } else if class < 0x1000_0000 {
        7
    } else {
        8
    }
}

/// Adds an error class.
fn push_class(text: &mut ItemText, class: u32)
    requires { length text.old + 8 ≤ 200 }
    ensures text { text.new ≡ text.old ++ class_text class }
    ensures len { length text.new ≤ length text.old + 8 }
{
    text.push_hex(class_width(class), u64::from(class));
}

/// Adds the text of a frame, without its closing ` >`.
#[inline(always)]
fn push_frame(text: &mut ItemText, frame: &Frame, moment: Moment)
    requires { length text.old + 168 ≤ 200 }
    ensures text { text.new ≡ text.old ++ frame_front frame.now moment }
    ensures len { length text.new ≤ length text.old + 168 }
{
    if frame.is_remote() {
        push_remote(text, frame, moment);
    } else if frame.is_fd() {
        push_fd(text, frame, moment);
    } else {
        push_classic(text, frame, moment);
    }
}

/// Adds a data frame, without the `>` at the end. If there is no data, the last byte is a space.
fn push_classic(text: &mut ItemText, frame: &Frame, moment: Moment)
    requires { length text.old + 168 ≤ 200 }
    ensures text { text.new ≡ text.old ++ data_front frame.now moment }
    ensures len { length text.new ≤ length text.old + 168 }
{
    text.push_all(b"< frame ");
    push_data(text, frame, moment);
}

/// Adds an FD frame, without the `>` at the end. If there is no data, the last byte is a space.
fn push_fd(text: &mut ItemText, frame: &Frame, moment: Moment)
    requires { length text.old + 168 ≤ 200 }
    ensures text { text.new ≡ text.old ++ fd_front frame.now moment }
    ensures len { length text.new ≤ length text.old + 168 }
{
    push_fd_word(text, frame.flags());
    push_data(text, frame, moment);
}

/// Adds the words before the identifier of an FD frame with these flags.
fn push_fd_word(text: &mut ItemText, flags: FdFlags)
    requires { length text.old + 13 ≤ 200 }
    ensures text { text.new ≡ text.old ++ fd_word flags }
    ensures len { length text.new ≤ length text.old + 13 }
{
    if flags.is_none() {
        text.push_all(b"< fdframe ");
    } else {
        text.push_all(b"< fdframex ");
        text.push(b'0' + flags.number());
        text.push(b' ');
    }
}

/// Adds the identifier, the timestamp and the data of a frame.
fn push_data(text: &mut ItemText, frame: &Frame, moment: Moment)
    requires { length text.old + 155 ≤ 200 }
    ensures text { text.new ≡ text.old ++ body_text frame.now moment }
    ensures len { length text.new ≤ length text.old + 155 }
{
    prove!(frame.len() <= 64);
    text.push_id(frame.id());
    text.push_all(b" ");
    text.push_moment(moment);
    text.push_all(b" ");
    text.push_pairs(frame.bytes());
}

/// Adds a remote frame, without its closing ` >`.
fn push_remote(text: &mut ItemText, frame: &Frame, moment: Moment)
    requires remote { is_remote frame.now.payload ≡ true }
    requires room { length text.old + 51 ≤ 200 }
    ensures text { text.new ≡ text.old ++ remote_front frame.now moment }
    ensures len { length text.new ≤ length text.old + 51 }
{
    text.push_all(b"< remote ");
    text.push_id(frame.id());
    text.push_all(b" ");
    text.push_moment(moment);
    text.push_all(b" ");
    push_length(text, frame.len());
}

/// Adds the length of the data that a remote frame requests.
fn push_length(text: &mut ItemText, len: u8)
    requires small { len ≤ 8 }
    requires room { length text.old < 200 }
    ensures text { text.new ≡ text.old ++ decimal len }
    ensures len { length text.new ≡ length text.old + 1 }
{
    text.push(b'0' + len);
}

/// Adds an error message frame.
fn push_error(text: &mut ItemText, error: ErrorFrame, moment: Moment, errdata: bool)
    requires { length text.old + 53 ≤ 200 }
    ensures text { text.new ≡ text.old ++ error_text errdata error moment }
    ensures len { length text.new ≤ length text.old + 53 }
{
    text.push_all(b"< error ");
    push_class(text, error.class());
    text.push_all(b" ");
    text.push_moment(moment);
    if errdata {
        text.push_all(b" ");
        text.push_pairs(&error.data());
    }
    text.push_all(b" >");
}

/// Returns the text of the eight counts of `stats`.
fn stats_text(socket: SocketStats, iface: IfaceStats) -> Text
    ensures { result ≡ stats_text socket iface }
{
    let mut text = Text::new();
    text.push_all(b"< stats");
    push_next(&mut text, socket.queued);
    push_next(&mut text, socket.dropped);
    push_next(&mut text, socket.taken);
    push_next(&mut text, iface.sent);
    push_next(&mut text, iface.done);
    push_next(&mut text, iface.waiting);
    push_next(&mut text, iface.lost);
    push_next(&mut text, iface.refused);
    text.push_all(b" >");
    text
}

/// Returns the word for a fault confinement state.
fn state_word(state: State) -> &'static [u8]
    ensures word { result.now ≡ state_word state }
    ensures short { length result.now ≤ 7 }
{
    match state {
        State::Active => b"active",
        State::Warning => b"warning",
        State::Passive => b"passive",
        State::Off => b"off",
        State::Down => b"down",
    }
}

/// Returns the text of `status`: the state and the two counters.
fn status_text(counters: Counters) -> Text
    ensures { result ≡ status_text counters }
{
    let mut text = Text::new();
    text.push_all(b"< status ");
    text.push_all(state_word(counters.state()));
    push_next(&mut text, u64::from(counters.tec()));
    push_next(&mut text, u64::from(counters.rec()));
    text.push_all(b" >");
    text
}

/// Returns the text of the four numbers of `load`.
fn load_text(load: BusLoad) -> Text
    ensures { result ≡ load_text load }
{
    let mut text = Text::new();
    text.push_all(b"< load");
    push_next(&mut text, u64::from(load.permille));
    push_next(&mut text, load.micros);
    push_next(&mut text, u64::from(load.bitrate));
    push_next(&mut text, u64::from(load.dbitrate));
    text.push_all(b" >");
    text
}
