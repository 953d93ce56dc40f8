ghost use Rattle.std.specs.Prelude.{◌≡◌, ◌≤◌, false, length, reverse};
ghost use Rattle.can_event.specs.Replies.{entry_of};
ghost use Rattle.can_record.specs.PackedEntry.{entry_in, frames_needed, IsSmall};
ghost use Rattle.can_record.specs.StoredEntry.{entry_stored, IsStored};
ghost use Rattle.can_record_text.specs.Spelling.{all_needs, both_needs, down_needs, event_needs, frame_needs, item_needs, needs_of, no_needs, option_needs, refusal_needs, reply_needs};

use can_event::{Attempt, Entry, Event, Opt, Refusal, Reply};
use can_frame::{Frame, Item};
use can_record::{PackedEntry, Record, StoredEntry};

/// The features of the later versions that lines of a record need.
#[derive(Debug, Clone, Copy, PartialEq, Eq)]
pub struct Needs {
    /// The lines have an FD frame, or the option for FD frames.
    pub fd: bool,
    /// The lines have an FD frame with a flag.
    pub flags: bool,
    /// The lines have a call that takes an interface down, or a refusal because an interface is down.
    pub down: bool,
}

impl Needs {
    /// Nothing.
    pub fn nothing() -> Needs
        ensures { result ≡ no_needs }
    {
        Needs {
            fd: false,
            flags: false,
            down: false,
        }
    }

    /// Returns the combined needs of two parts of a text.
    pub fn and(self, others: Needs) -> Needs
        ensures { result ≡ both_needs self others }
    {
        Needs {
            fd: self.fd || others.fd,
            flags: self.flags || others.flags,
            down: self.down || others.down,
        }
    }

    /// Returns the needs of the line of an event with this reply. Most lines need nothing, so this is checked first.
    pub fn of(event: &Event, reply: &Reply) -> Needs
        ensures { result ≡ needs_of (entry_of event.now reply.now) }
    {
        if may_need(event) || may_need_of(reply) {
            Needs::of_words(event, reply)
        } else {
            Needs::nothing()
        }
    }

    /// Returns the needs of the line of an event with this reply, without the check for common lines.
    #[inline(never)]
    fn of_words(event: &Event, reply: &Reply) -> Needs
        ensures { result ≡ needs_of (entry_of event.now reply.now) }
    {
        Needs::of_event(event).and(Needs::of_reply(reply))
    }

    /// Returns the needs of the words of an event.
    fn of_event(event: &Event) -> Needs
        ensures { result ≡ event_needs event.now }
    {
        match event {
            Event::SetOption(_, Opt::FdFrames(_)) => Needs::of_option(),
            Event::Send(_, frame) => Needs::of_frame(frame),
            Event::Down(_, _) => Needs::of_down(),
            _ => Needs::nothing(),
        }
    }

    /// Returns the needs of the words of a reply.
    fn of_reply(reply: &Reply) -> Needs
        ensures { result ≡ reply_needs reply.now }
    {
        match reply {
            Reply::Received(Some(received)) => Needs::of_item(&received.item),
            Reply::Attempted(Attempt::Tried(tried)) => Needs::of_frame(&tried.frame),
            Reply::Refused(why) => Needs::of_refusal(*why),
            _ => Needs::nothing(),
        }
    }

    /// Returns the needs of an item.
    fn of_item(item: &Item) -> Needs
        ensures { result ≡ item_needs item.now }
    {
        match item {
            Item::Data(frame) => Needs::of_frame(frame),
            Item::Error(_) => Needs::nothing(),
        }
    }

    /// Returns the needs of a frame.
    fn of_frame(frame: &Frame) -> Needs
        ensures { result ≡ frame_needs frame.now }
    {
        Needs {
            fd: frame.is_fd(),
            flags: frame.is_flagged(),
            down: false,
        }
    }

    /// Returns the needs of the option for FD frames.
    fn of_option() -> Needs
        ensures { result ≡ option_needs }
    {
        Needs {
            fd: true,
            flags: false,
            down: false,
        }
    }

    /// Returns the needs of a refusal.
    fn of_refusal(why: Refusal) -> Needs
        ensures { result ≡ refusal_needs why }
    {
        match why {
            Refusal::Down => Needs::of_down(),
            _ => Needs::nothing(),
        }
    }

    /// Returns the needs of a call that takes an interface down, or of a refusal because it is down.
    fn of_down() -> Needs
        ensures { result ≡ down_needs }
    {
        Needs {
            fd: false,
            flags: false,
            down: true,
        }
    }

    /// Returns the needs of all lines of a record.
    pub(crate) fn of_record(record: &Record) -> Needs
        ensures { result ≡ all_needs (reverse «record».now.history) }
    {
        let mut needs = Needs::nothing();
        for place in 0..record.len() {
            let stored = record.stored(place).unwrap();
            needs = needs.and(Needs::of_stored(&stored));
        }
        needs
    }

    /// Returns the needs of the line of a stored entry.
    fn of_stored(stored: &StoredEntry<'_>) -> Needs
        requires { IsStored stored.now }
        ensures { result ≡ needs_of (entry_stored stored.now) }
    {
        match stored {
            StoredEntry::Packed(frames, kept) => Needs::of_kept(frames, kept),
            StoredEntry::Whole(entry) => Needs::of(&entry.event, &entry.reply),
        }
    }

    /// Returns the needs of the line of a packed entry.
    fn of_kept(frames: &[Frame], kept: &PackedEntry) -> Needs
        requires small { IsSmall kept.now }
        requires within { frames_needed kept.now ≤ length frames.now }
        ensures { result ≡ needs_of (entry_in frames.now kept.now) }
    {
        match kept {
            PackedEntry::FdSent { place, .. } => Needs::of_frame(&frames[*place]),
            PackedEntry::FdSendRefused { why, place, .. } => {
                Needs::of_frame(&frames[*place]).and(Needs::of_refusal(*why))
            }
            PackedEntry::FdReceived { place, .. } => Needs::of_frame(&frames[*place]),
            PackedEntry::FdTried { place, .. } => Needs::of_frame(&frames[*place]),
            PackedEntry::OptionSet {
                option: Opt::FdFrames(_),
                ..
            } => Needs::of_option(),
            PackedEntry::OptionRefused {
                option: Opt::FdFrames(_),
                why,
                ..
            } => Needs::of_option().and(Needs::of_refusal(*why)),
            PackedEntry::TakenDown { .. } => Needs::of_down(),
            PackedEntry::DownRefused { why, .. } => Needs::of_down().and(Needs::of_refusal(*why)),
            PackedEntry::OpenRefused { why, .. }
            | PackedEntry::CloseRefused { why, .. }
            | PackedEntry::OptionRefused { why, .. }
            | PackedEntry::SendRefused { why, .. }
            | PackedEntry::ReceiveRefused { why, .. }
            | PackedEntry::AttemptRefused { why, .. }
            | PackedEntry::RestartRefused { why, .. } => Needs::of_refusal(*why),
            _ => Needs::nothing(),
        }
    }

    /// Returns the needs of the lines of these entries.
    pub(crate) fn of_entries(entries: &[Entry]) -> Needs
        ensures { result ≡ all_needs entries.now }
    {
        let mut needs = Needs::nothing();
        for entry in entries {
            needs = needs.and(Needs::of(&entry.event, &entry.reply));
        }
        needs
    }
}

/// Returns whether an event sends an FD frame, sets the option for FD frames, or takes an interface down.
#[tactic(auto, using(crate::proofs::Versioning::classic_frame))]
fn may_need(event: &Event) -> bool
    ensures { result ≡ false → event_needs event.now ≡ no_needs }
{
    match event {
        Event::SetOption(_, Opt::FdFrames(_)) => true,
        Event::Send(_, frame) => frame.is_fd(),
        Event::Down(_, _) => true,
        _ => false,
    }
}

/// Returns whether a reply has an FD frame, or is the refusal `Down`.
#[tactic(auto, using(crate::proofs::Versioning::classic_frame))]
fn may_need_of(reply: &Reply) -> bool
    ensures { result ≡ false → reply_needs reply.now ≡ no_needs }
{
    match reply {
        Reply::Received(Some(received)) => is_fd_item(&received.item),
        Reply::Attempted(Attempt::Tried(tried)) => tried.frame.is_fd(),
        Reply::Refused(why) => *why == Refusal::Down,
        _ => false,
    }
}

/// Returns whether an item is an FD frame.
#[tactic(auto, using(crate::proofs::Versioning::classic_frame))]
fn is_fd_item(item: &Item) -> bool
    ensures { result ≡ false → item_needs item.now ≡ no_needs }
{
    match item {
        Item::Data(frame) => frame.is_fd(),
        Item::Error(_) => false,
    }
}
