use crate::attempt_end::AttemptEnd;
use crate::attempt_stamp::AttemptStamp;
use crate::frame_words::IdWord;
use can_event::{Closed, Entry, Opt, Refusal, SocketId};
use can_fault::Verdict;
use can_frame::{ErrorFrame, Iface, IfaceSet, Moment};

/// An entry in 32 bytes. The fields of a variant are laid out in the order in which they are declared, so the small ones come right
/// after the tag.
///
/// A frame that is not an FD frame is stored as its identifier word, its length and its bytes. FD frames are in a separate list,
/// and an entry stores the place of its FD frame in that list.
#[derive(Drop)]
pub enum PackedEntry {
    Opened {
        iface: Iface,
        capacity: u32,
        socket: SocketId,
    },
    OpenRefused {
        iface: Iface,
        capacity: u32,
        why: Refusal,
    },
    Closed {
        socket: SocketId,
        counts: Closed,
    },
    CloseRefused {
        socket: SocketId,
        why: Refusal,
    },
    OptionSet {
        socket: SocketId,
        option: Opt,
    },
    OptionRefused {
        socket: SocketId,
        option: Opt,
        why: Refusal,
    },
    Sent {
        len: u8,
        socket: SocketId,
        word: IdWord,
        number: u32,
        bytes: [u8; 8],
    },
    FdSent {
        socket: SocketId,
        number: u32,
        place: usize,
    },
    SendRefused {
        why: Refusal,
        len: u8,
        socket: SocketId,
        word: IdWord,
        bytes: [u8; 8],
    },
    FdSendRefused {
        why: Refusal,
        socket: SocketId,
        place: usize,
    },
    NothingReceived {
        socket: SocketId,
    },
    FrameReceived {
        from: Iface,
        len: u8,
        socket: SocketId,
        word: IdWord,
        number: u32,
        bytes: [u8; 8],
        moment: Moment,
    },
    FdReceived {
        from: Iface,
        socket: SocketId,
        number: u32,
        place: usize,
        moment: Moment,
    },
    ErrorReceived {
        from: Iface,
        socket: SocketId,
        number: u32,
        error: ErrorFrame,
        moment: Moment,
    },
    ReceiveRefused {
        socket: SocketId,
        why: Refusal,
    },
    Idle {
        restarted: IfaceSet,
        verdict: Verdict,
        moment: Moment,
    },
    Tried {
        end: AttemptEnd,
        /// The interfaces that the verdict names.
        named: IfaceSet,
        word: IdWord,
        number: u32,
        accepted: IfaceSet,
        restarted: IfaceSet,
        bytes: [u8; 8],
        stamp: AttemptStamp,
    },
    FdTried {
        end: AttemptEnd,
        winner: Iface,
        number: u32,
        named: IfaceSet,
        accepted: IfaceSet,
        off: IfaceSet,
        restarted: IfaceSet,
        place: usize,
        moment: Moment,
    },
    AttemptRefused {
        verdict: Verdict,
        moment: Moment,
        why: Refusal,
    },
    Restarted {
        iface: Iface,
        moment: Moment,
    },
    RestartRefused {
        iface: Iface,
        moment: Moment,
        why: Refusal,
    },
    TakenDown {
        iface: Iface,
        moment: Moment,
    },
    DownRefused {
        iface: Iface,
        moment: Moment,
        why: Refusal,
    },
    /// Any entry, in a box with its own memory.
    Boxed(Box<Entry>),
}

/// The stored form of a frame: its identifier word, its length and its bytes, or the place of an FD frame in the list of FD frames.
pub enum PackedFrame {
    Words {
        word: IdWord,
        len: u8,
        bytes: [u8; 8],
    },
    Place(usize),
}
