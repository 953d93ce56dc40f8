ghost use Rattle.std.specs.Prelude.{◌≡◌, [], ◌∷◌};
ghost use Rattle.can_event.specs.Replies.{entry_of};
ghost use Rattle.can_record.specs.PackedEntry.{receive_entry, send_entry};

use can_event::{Event, Received, Refusal, Reply, SocketId};
use can_frame::Frame;
use std::marker::Model;
use std::mem::{self, size_of};
use std::snapshot::Snapshot;

const _: () = prove!(size_of::<History>() == 0);

// The entries as contracts see them. No value of this type is kept in memory.
#[derive(Drop)]
enum Chain {
    Empty,
    Answered(Snapshot<Chain>, Snapshot<Event>, Snapshot<Reply>),
    Received(
        Snapshot<Chain>,
        Snapshot<SocketId>,
        Snapshot<Result<bool, Refusal>>,
        Snapshot<Received>,
    ),
    Sent(Snapshot<Chain>, Snapshot<SocketId>, Snapshot<Frame>, Snapshot<Result<u64, Refusal>>),
}

/// The entries of a bus, the newest first. Only contracts see them: the value takes no memory, and
/// its methods do nothing at run time.
#[derive(Drop)]
pub struct History {
    chain: Snapshot<Chain>,
}

impl Model for History {
    ghost use Rattle.std.specs.Prelude.{List};
    ghost use Rattle.can_event.specs.declared.entry.Entry.{Entry};
    ghost use Rattle.can_bus.specs.Chains.{entries_of};

    ghost Value = { List Entry };

    ghost view = { λ h. entries_of h.chain.value };
}

impl History {
    /// Returns a history without entries.
    pub fn new() -> History
        ensures { result ≡ [] }
    {
        History {
            chain: Snapshot::of(&Chain::Empty),
        }
    }

    /// Notes an event with its reply.
    pub fn note(&mut self, event: &Event, reply: &Reply)
        ensures { self.new ≡ entry_of event.now reply.now ∷ self.old }
    {
        let before = mem::replace(&mut self.chain, Snapshot::of(&Chain::Empty));
        let chain = Chain::Answered(before, Snapshot::of(event), Snapshot::of(reply));
        self.chain = Snapshot::of(&chain);
    }

    /// Notes a receive call, which took an item into `room`, took none, or was refused.
    pub fn note_receive(&mut self, id: &SocketId, outcome: &Result<bool, Refusal>, room: &Received)
        ensures { self.new ≡ receive_entry id.now room.now outcome.now ∷ self.old }
    {
        let before = mem::replace(&mut self.chain, Snapshot::of(&Chain::Empty));
        let chain = Chain::Received(
            before,
            Snapshot::of(id),
            Snapshot::of(outcome),
            Snapshot::of(room),
        );
        self.chain = Snapshot::of(&chain);
    }

    /// Notes a send, which gave the frame this number or was refused.
    pub fn note_send(&mut self, id: &SocketId, frame: &Frame, outcome: &Result<u64, Refusal>)
        ensures { self.new ≡ send_entry id.now frame.now outcome.now ∷ self.old }
    {
        let before = mem::replace(&mut self.chain, Snapshot::of(&Chain::Empty));
        let chain = Chain::Sent(
            before,
            Snapshot::of(id),
            Snapshot::of(frame),
            Snapshot::of(outcome),
        );
        self.chain = Snapshot::of(&chain);
    }
}
