//! Converts between the C structs and the types of the bus.
ghost use Rattle.std.specs.Prelude.{◌≡◌, ◌≤◌, length, take, option_map};
ghost use Rattle.canbusd_c.specs.Shapes.{id_of_word, classic_of_struct, frame_of_struct, fd_of_struct, frame_of_struct_with, padded_to_64, frame_out, error_out, item_frame, item_out, no_frame_struct, class_out, tried_out, option_of_numbers, state_out, status_out, stats_out, load_out};

use crate::shapes::{CFrame, CItem, CLoad, CStats, CStatus, CTried};
use can_attempt::Class;
use can_bus::{Attempt, IfaceStats, Opt, Received, SocketStats, Tried};
use can_confine::State;
use can_frame::{CanId, ErrorFrame, FdFlags, Frame, Item};
use can_proto::BusLoad;

const EXTENDED: u32 = 0x8000_0000;

const REMOTE: u32 = 0x4000_0000;

const ERROR: u32 = 0x2000_0000;

const NUMBER: u32 = 0x1FFF_FFFF;

const FDF: u8 = 4;

/// Returns the identifier in an identifier word, or `None` if it is out of range.
fn id_in(word: u32) -> Option<CanId>
    ensures { result ≡ id_of_word word }
{
    let number = word & NUMBER;
    if word & EXTENDED != 0 {
        CanId::extended(number).ok()
    } else if number < 0x800 {
        CanId::standard(number as u16).ok()
    } else {
        None
    }
}

/// Returns the data frame or remote frame in a struct, if it is valid.
fn classic_in(id: CanId, frame: &CFrame) -> Option<Frame>
    ensures { result ≡ classic_of_struct id frame.now }
{
    if frame.len > 8 {
        return None;
    }
    if frame.id & REMOTE != 0 {
        Frame::remote(id, frame.len).ok()
    } else {
        Frame::data(id, &frame.bytes[..frame.len as usize]).ok()
    }
}

/// Returns the FD frame in a struct, if it is valid.
fn fd_in(id: CanId, frame: &CFrame, flags: Option<FdFlags>) -> Option<Frame>
    ensures { result ≡ fd_of_struct id frame.now flags }
{
    let flags = flags?;
    if frame.id & REMOTE != 0 || frame.len > 64 {
        return None;
    }
    Frame::fd_with(id, flags, &frame.bytes[..frame.len as usize]).ok()
}

/// Returns the frame in a struct, if it is valid.
pub fn frame_in(frame: &CFrame) -> Option<Frame>
    ensures { result ≡ frame_of_struct frame.now }
{
    if frame.id & ERROR != 0 {
        return None;
    }
    let id = id_in(frame.id)?;
    if frame.flags == 0 {
        classic_in(id, frame)
    } else if frame.flags < FDF {
        None
    } else {
        fd_in(id, frame, FdFlags::from_number(frame.flags - FDF))
    }
}

/// Returns these bytes followed by zeros.
fn padded(bytes: &[u8]) -> [u8; 64]
    requires { length bytes.now ≤ 64 }
    ensures { result ≡ padded_to_64 bytes.now }
{
    let mut all = [0; 64];
    all[..bytes.len()].copy_from_slice(bytes);
    all
}

/// Returns a frame as a struct.
fn frame_out(frame: &Frame) -> CFrame
    ensures { result ≡ frame_out frame.now }
{
    let len = frame.len();
    CFrame {
        id: frame.word(),
        len,
        flags: flags_out(frame),
        unused: 0,
        bytes: padded(frame.bytes()),
    }
}

/// Returns the flags of a frame in a struct.
fn flags_out(frame: &Frame) -> u8
    ensures { result ≡ (frame_out frame.now).flags }
{
    if frame.is_fd() {
        frame.flags().number() + FDF
    } else {
        0
    }
}

/// Returns an error message frame as a struct.
fn error_out(error: &ErrorFrame) -> CFrame
    ensures { result ≡ error_out error.now }
{
    CFrame {
        id: error.class() + ERROR,
        len: 8,
        flags: 0,
        unused: 0,
        bytes: padded(&error.data()),
    }
}

/// Returns a received item as a struct.
pub fn item_out(received: &Received) -> CItem
    ensures { result ≡ item_out received.now }
{
    CItem {
        frame: item_frame(&received.item),
        iface: u32::from(received.from.number()),
        number: received.number,
        moment: received.moment.micros(),
    }
}

/// Returns a frame or an error message frame as a struct.
fn item_frame(item: &Item) -> CFrame
    ensures { result ≡ item_frame item.now }
{
    match item {
        Item::Data(frame) => frame_out(frame),
        Item::Error(error) => error_out(error),
    }
}

/// No frame.
fn no_frame() -> CFrame
    ensures { result ≡ no_frame_struct }
{
    CFrame {
        id: 0,
        len: 0,
        flags: 0,
        unused: 0,
        bytes: [0; 64],
    }
}

/// Returns the number that C uses for the class of an attempt.
fn class_out(class: Class) -> u32
    ensures { result ≡ class_out class }
{
    match class {
        Class::Done => 1,
        Class::LastBit => 2,
        Class::Destroyed => 3,
        Class::NoAck => 4,
    }
}

/// Returns the result of an attempt as a struct.
pub fn tried_out(attempt: &Attempt) -> CTried
    ensures { result ≡ tried_out attempt.now }
{
    match attempt {
        Attempt::Idle { restarted } => CTried {
            frame: no_frame(),
            class: 0,
            iface: 0,
            number: 0,
            moment: 0,
            accepted: 0,
            off: 0,
            restarted: u32::from(restarted.0),
            unused: 0,
        },
        Attempt::Tried(tried) => frame_tried(tried),
    }
}

/// Returns a frame that was tried as a struct.
fn frame_tried(tried: &Tried) -> CTried
    ensures { result ≡ tried_out (Attempt.Tried tried.now) }
{
    CTried {
        frame: frame_out(&tried.frame),
        class: class_out(tried.class),
        iface: u32::from(tried.winner.number()),
        number: tried.number,
        moment: tried.moment.micros(),
        accepted: u32::from(tried.accepted.0),
        off: u32::from(tried.off.0),
        restarted: u32::from(tried.restarted.0),
        unused: 0,
    }
}

/// Returns the option with this number, set to `value`.
pub fn option_in(option: u32, value: u32) -> Option<Opt>
    ensures { result ≡ option_of_numbers option value }
{
    match option {
        2 => Some(Opt::ErrMask(value)),
        3 => Some(Opt::Loopback(value != 0)),
        4 => Some(Opt::RecvOwn(value != 0)),
        5 => Some(Opt::FdFrames(value != 0)),
        6 => Some(Opt::Join(value != 0)),
        _ => None,
    }
}

/// Returns the number that C uses for a state.
fn state_out(state: State) -> u32
    ensures { result ≡ state_out state }
{
    match state {
        State::Active => 0,
        State::Warning => 1,
        State::Passive => 2,
        State::Off => 3,
        State::Down => 4,
    }
}

/// Returns the counts of an interface as a struct.
pub fn status_out(stats: &IfaceStats) -> CStatus
    ensures { result ≡ status_out stats.now }
{
    let counters = stats.counters;
    CStatus {
        state: state_out(counters.state()),
        tec: u32::from(counters.tec()),
        rec: u32::from(counters.rec()),
        unused: 0,
        sent: stats.sent,
        done: stats.done,
        waiting: stats.waiting,
        lost: stats.lost,
        refused: stats.refused,
    }
}

/// Returns the counts of a socket as a struct.
pub fn stats_out(stats: &SocketStats) -> CStats
    ensures { result ≡ stats_out stats.now }
{
    CStats {
        queued: stats.queued,
        dropped: stats.dropped,
        taken: stats.taken,
    }
}

/// Returns the load of a wire as a struct.
pub fn load_out(load: &BusLoad) -> CLoad
    ensures { result ≡ load_out load.now }
{
    CLoad {
        permille: u32::from(load.permille),
        bitrate: load.bitrate,
        data_bitrate: load.dbitrate,
        unused: 0,
        micros: load.micros,
    }
}
