ghost use Rattle.std.specs.Prelude.{◌≡◌, ◌≢◌, ◌<◌, [], ◌++◌, ℕ, List, true, Ok, length};
ghost use Rattle.can_bus.specs.Answer.{Answers};
ghost use Rattle.can_bus.specs.Attempts.{winner};
ghost use Rattle.can_bus.specs.AutoRestart.{is_counting};
ghost use Rattle.can_bus.specs.Heads.{next_head};
ghost use Rattle.can_record.specs.Journal.{Journal};
ghost use Rattle.can_bus.specs.Lean.{record_of};
ghost use Rattle.can_bus.specs.Legal.{IsLegal};
ghost use Rattle.can_bus.specs.Long.{HasTail, handed_entries, journal_of, places_left};
ghost use Rattle.can_bus.specs.Run.{IsAnswered};
ghost use Rattle.can_bus.specs.State.{IsKept};
ghost use Rattle.can_bus.specs.Stats.{socket_stats_of, iface_stats_of, all_counts};
ghost use Rattle.can_record.specs.Tapes.{tape};
ghost use Rattle.can_event.specs.Events.{IsLongConfig};
ghost use Rattle.can_event.specs.Replies.{taken_reply};
ghost use Rattle.can_event.specs.declared.entry.Entry.{Entry};
ghost use Rattle.can_event.specs.declared.event.Event.TheVariants as event;
ghost use Rattle.can_event.specs.declared.reply.Reply.TheVariants as reply;

use crate::bus::RingBus;
use crate::long_bus::{LongEnd, LongRingBus};
use crate::state::RingState;
use can_confine::Counters;
use can_event::{Event, IfaceStats, Received, Refusal, Reply, SocketId, SocketStats};
use can_frame::{Frame, Iface};
use can_record::{PackedRecord, Record};
use std::alloc::Global;

/// A bus that several callers share. Contracts see its journal, and the number of entries that it can still take. Each method does
/// the same as the method of `Bus` with its name. The methods after `state` have default bodies that read the state.
pub trait Journaled: Drop {
    /// The configuration and the entries so far.
    ghost journal: { Self → Journal };

    /// The number of entries that the bus can take before the caller has to take some out.
    ghost places_in: { Self → ℕ };

    /// The entries that were handed out to the caller, the oldest first.
    ghost handed_out: { Self → List Entry };

    /// The value that remains at the end of the run.
    type Left: Drop;

    /// The configuration and the entries of the bus, as seen from the value that remains.
    ghost left: { Self.Left → Journal };

    /// The entries that the bus had handed out, as seen from the value that remains.
    ghost handed_by: { Self.Left → List Entry };

    /// Returns the number of entries that the bus can take before the caller has to take some out. It is `usize::MAX` if
    /// the caller never has to take any out.
    fn places(&self) -> usize
        ensures { result ≡ places_in self.now };

    /// Returns the number of entries in the history.
    fn len(&self) -> u64
        ensures len { result ≡ length (journal self.now).history }
        ensures proper { IsLongConfig (journal self.now).config }
        ensures legal { IsLegal (journal self.now).config (journal self.now).history };

    /// Carries out an event and returns its reply.
    fn answer(&mut self, alloc: Global, event: &Event) -> Reply
        requires { 0 < places_in self.old }
        ensures answered { IsAnswered (journal self.old) event.now result (journal self.new) }
        ensures out { handed_out self.new ≡ handed_out self.old };

    /// Puts a frame into the transmit queue of the socket's interface, and returns its number there.
    fn send(&mut self, id: SocketId, frame: Frame) -> Result<u64, Refusal>
        requires { 0 < places_in self.old }
        ensures answer { Answers reply.Sent (journal self.old) (event.Send id frame) result
            (journal self.new) }
        ensures out { handed_out self.new ≡ handed_out self.old };

    /// Takes the oldest item of a socket into `room`, and returns whether there was one.
    fn receive_into(&mut self, id: SocketId, room: &mut Received) -> Result<bool, Refusal>
        requires { 0 < places_in self.old }
        ensures answer { Answers (taken_reply room.new) (journal self.old) (event.Receive id) result
            (journal self.new) }
        ensures stays { result ≢ Ok true → room.new ≡ room.old }
        ensures out { handed_out self.new ≡ handed_out self.old };

    /// Hands out the entries that were not handed out before, in order, in exchange for an empty block. It returns the
    /// number of entries handed out earlier. A bus that keeps its whole record hands out no entries.
    fn hand_out(&mut self, block: &mut PackedRecord) -> u64
        requires { block.old.entries ≡ [] }
        ensures handed { HasTail (journal self.old).history block.new.entries result }
        ensures same { journal self.new ≡ journal self.old }
        ensures out { handed_out self.new ≡ handed_out self.old ++ block.new.entries };

    /// Returns the value that remains at the end of the run.
    fn into_left(self) -> Self::Left
        ensures left { left result ≡ journal self }
        ensures out { handed_by result ≡ handed_out self };

    /// Returns the state that the bus keeps besides its entries.
    fn state(&self) -> &RingState
        ensures { IsKept (record_of (journal self.now).config (journal self.now).history)
            result.now };

    /// Returns the number of the next attempt that tries a frame.
    fn next_attempt(&self) -> u64
        ensures { result ≡ length (tape (journal self.now).history) }
    {
        self.state().tried()
    }

    /// Returns the interface whose frame the next attempt tries.
    fn next_winner(&self) -> Option<Iface>
        ensures { result ≡ winner (journal self.now).config (journal self.now).history }
    {
        self.state().winner()
    }

    /// Returns the interface and the frame that the next attempt tries.
    fn next_head(&self) -> Option<(Iface, Frame)>
        ensures { result ≡ next_head (journal self.now).config (journal self.now).history }
    {
        self.state().next_head()
    }

    /// Returns whether an automatic restart is pending for any interface.
    fn is_counting(&self) -> bool
        ensures { result ≡ is_counting (journal self.now).config (journal self.now).history }
    {
        self.state().is_counting()
    }

    /// Returns the error counters of all 16 places, by interface.
    fn counters(&self) -> [Counters; 16]
        ensures { result ≡ all_counts (journal self.now).config (journal self.now).history }
    {
        self.state().counters()
    }

    /// Returns the numbers of queued, dropped and taken items of an open socket.
    fn socket_stats(&self, id: SocketId) -> Option<SocketStats>
        ensures { result
            ≡ socket_stats_of (journal self.now).config (journal self.now).history id.0 }
    {
        self.state().socket_stats(id)
    }

    /// Returns the frame counts and the error counters of an interface.
    fn iface_stats(&self, iface: Iface) -> Option<IfaceStats>
        ensures { result
            ≡ iface_stats_of (journal self.now).config (journal self.now).history iface }
    {
        self.state().iface_stats(iface)
    }
}

impl Journaled for RingBus {
    ghost journal = { λ b. b };

    // The largest `usize`.
    ghost places_in = { λ b. 18446744073709551615 };

    ghost handed_out = { λ b. [] };

    type Left = Record;

    ghost left = { λ r. record { config = r.config; history = r.history } };

    ghost handed_by = { λ r. [] };

    fn places(&self) -> usize {
        usize::MAX
    }

    fn len(&self) -> u64 {
        RingBus::len(self)
    }

    fn answer(&mut self, alloc: Global, event: &Event) -> Reply {
        RingBus::answer(self, alloc, event)
    }

    fn send(&mut self, id: SocketId, frame: Frame) -> Result<u64, Refusal> {
        RingBus::send(self, id, frame)
    }

    fn receive_into(&mut self, id: SocketId, room: &mut Received) -> Result<bool, Refusal> {
        RingBus::receive_into(self, id, room)
    }

    fn hand_out(&mut self, _block: &mut PackedRecord) -> u64 {
        RingBus::len(self)
    }

    fn into_left(self) -> Record {
        self.into_record()
    }

    fn state(&self) -> &RingState {
        RingBus::state(self)
    }
}

impl Journaled for LongRingBus {
    ghost journal = { journal_of };

    ghost places_in = { places_left };

    ghost handed_out = { handed_entries };

    type Left = LongEnd;

    ghost left = { journal_of };

    ghost handed_by = { handed_entries };

    fn places(&self) -> usize {
        LongRingBus::places(self)
    }

    fn len(&self) -> u64 {
        LongRingBus::len(self)
    }

    fn answer(&mut self, alloc: Global, event: &Event) -> Reply {
        LongRingBus::answer(self, alloc, event)
    }

    fn send(&mut self, id: SocketId, frame: Frame) -> Result<u64, Refusal> {
        LongRingBus::send(self, id, frame)
    }

    fn receive_into(&mut self, id: SocketId, room: &mut Received) -> Result<bool, Refusal> {
        LongRingBus::receive_into(self, id, room)
    }

    fn hand_out(&mut self, block: &mut PackedRecord) -> u64 {
        self.take_entries(block);
        LongRingBus::len(self) - block.len() as u64
    }

    fn into_left(self) -> LongEnd {
        LongRingBus::into_left(self)
    }

    fn state(&self) -> &RingState {
        LongRingBus::state(self)
    }
}
