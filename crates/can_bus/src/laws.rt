ghost use Rattle.std.specs.Prelude.{◌≡◌, ◌≢◌, ◌+◌, ◌-◌, ◌≤◌, ◌<◌, ◌==◌, ℕ, true, false, List, [], ◌∷◌, ◌++◌, length, map, take, count_by, All, AllPairs, Some, None};
ghost use Rattle.std.specs.List.{range_with_len};
ghost use Rattle.can_frame.specs.Frames.{CanFrame};
ghost use Rattle.can_frame.specs.Sets.{is_in};
ghost use Rattle.can_confine.specs.Confinement.{is_down, is_off, is_silent, at_start, stepped};
ghost use Rattle.can_confine.specs.Confinement.Step.{TakenDown};
ghost use Rattle.can_fault.specs.declared.verdict.Verdict.{Verdict};
ghost use Rattle.can_attempt.specs.declared.class.Class.TheVariants as class;
ghost use Rattle.can_event.specs.Events.{IsLongConfig};
ghost use Rattle.can_bus.specs.Transmit.{sent_by, gone_count, done_count, lost_count, head_of};
ghost use Rattle.can_bus.specs.Counters.{state_at, counts_of};
ghost use Rattle.can_bus.specs.Copies.{received_from, copying, copy_of, numbers_from, NeverFall, went_over, InTurn, IsOfSent};
ghost use Rattle.can_bus.specs.Repeats.{AtMost32Copies, RisesAtTheHead, LastBitAdds8, HadThatFaultAlone};
ghost use Rattle.can_bus.specs.Queues.{queued_to, dropped_at, taken_from, candidates_for};
ghost use Rattle.can_bus.specs.AutoRestart.{restarted_next};
ghost use Rattle.can_bus.specs.Headline.{Headline};
ghost use Rattle.can_bus.specs.Heads.{next_head};
ghost use Rattle.can_bus.specs.Offers.{Offer, offers_to, with_room, without_room};
ghost use Rattle.can_bus.specs.Sockets.{places, open_sockets, is_open, iface_of, capacity_of, options_of};
ghost use Rattle.can_bus.specs.Fates.{numbers_given, opening, closing, is_restart_of, is_taken_down, frames_with, goes_silent};
ghost use Rattle.can_bus.specs.Fates.Fate.{Waiting, Done, Lost};
ghost use Rattle.can_event.specs.declared.reply.Closed.{Closed};
ghost use Rattle.can_event.specs.declared.socket_id.SocketId.{SocketId};
ghost use Rattle.can_bus.specs.Legal.{lacks_fd, legal_reply, IsLegal};
ghost use Rattle.can_event.specs.Spelled.{IsSpelled};
ghost use Rattle.can_event.specs.declared.event.Event.TheVariants as event;
ghost use Rattle.can_event.specs.declared.reply.Reply.TheVariants as reply;
ghost use Rattle.can_event.specs.declared.refusal.Refusal.TheVariants as refusal;
ghost use Rattle.can_event.specs.declared.entry.Entry.{Entry};
ghost use Rattle.can_event.specs.declared.attempt.Tried.{Tried};
ghost use Rattle.can_event.specs.declared.attempt.Attempt.TheVariants as attempt;

use can_event::BusConfig;

// Laws of every legal history, in the words of the field. Each body is empty: the clause is the
// law.

// ---- the headline

/// Every accepted frame, exactly: the headline holds for every legal history of a proper
/// configuration. The laws below state its parts, and more.
pub fn every_accepted_frame_exactly(config: BusConfig)
    ensures { IsLongConfig config → (past : List Entry) → IsLegal config past →
        Headline config past }
{}

// ---- copies

/// A socket gets the data frames of an interface in order: one copy for each attempt that copied a
/// frame. Such an attempt happened while the socket was open, its frame reached the socket's
/// interface, passed the socket's filters and options, and found room.
pub fn each_copy_comes_of_one_attempt(config: BusConfig)
    ensures { (past : List Entry) → IsLegal config past → (i s : ℕ) →
        received_from config past i s ≡ map copy_of (copying config past i s) }
{}

/// The frame of each copy is the frame that the sending interface accepted under the copy's number.
pub fn copies_are_of_frames_sent(config: BusConfig)
    ensures { (past : List Entry) → IsLegal config past → (i s : ℕ) →
        All (IsOfSent past i) (copying config past i s) }
{}

/// On a socket the numbers of one interface's frames never decrease. Each copy comes from an
/// attempt that was done or failed only at the last bit. Of the attempts that copied one number, at
/// most one is done, and it is the last.
pub fn copies_come_in_turn(config: BusConfig)
    ensures numbers { (past : List Entry) → IsLegal config past → (i s : ℕ) →
        NeverFall 0 (numbers_from i (queued_to config past s)) }
    ensures classes { (past : List Entry) → IsLegal config past → (i s : ℕ) →
        All (λ t. went_over t.class ≡ true) (copying config past i s) }
    ensures turns { (past : List Entry) → IsLegal config past → (i s : ℕ) →
        AllPairs InTurn (copying config past i s) }
{}

/// An attempt that failed only at the last bit of end of frame had that fault and no other.
pub fn last_bit_attempts_had_that_fault_alone(config: BusConfig)
    ensures { (past : List Entry) → IsLegal config past → All HadThatFaultAlone past }
{}

/// A number is queued to a socket once for each attempt that copied the frame with that number.
pub fn each_number_is_queued_once_for_each_attempt(config: BusConfig)
    ensures { (past : List Entry) → IsLegal config past → (i s n : ℕ) →
        count_by (λ m. m == n) (numbers_from i (queued_to config past s))
        ≡ count_by (λ (t : Tried). t.number == n) (copying config past i s) }
{}

/// A socket of the sending interface gets a frame only by loopback, after the frame is done. So a
/// number is queued there at most once.
pub fn own_copies_are_single(config: BusConfig)
    ensures done { (past : List Entry) → IsLegal config past → (s : ℕ) →
        All (λ t. t.class ≡ class.Done) (copying config past (iface_of past s) s) }
    ensures single { (past : List Entry) → IsLegal config past → (s : ℕ) →
        AllPairs (λ (x y : Tried). x.number < y.number)
        (copying config past (iface_of past s) s) }
{}

/// On a bus with a proper configuration, a frame reaches a socket at most 32 times. While the frame
/// is first in its queue, the transmit error count of its interface never decreases. Each attempt
/// that failed only at the last bit adds 8. By the 32nd such attempt the interface is bus off, and
/// the frame is lost. Restarts do not change the bound: a restarted interface was bus off or down,
/// so it had no frame in its queue.
pub fn at_most_32_copies(config: BusConfig)
    ensures copies { IsLongConfig config → (past : List Entry) → IsLegal config past →
        AtMost32Copies config past }
    ensures rising { IsLongConfig config → (past : List Entry) → (e : Entry) →
        IsLegal config (e ∷ past) → RisesAtTheHead config e past }
    ensures last_bit { (past : List Entry) → (e : Entry) → IsLegal config (e ∷ past) →
        LastBitAdds8 config e past }
{}

// ---- frames

/// Each frame accepted for sending is done, waits, or was lost when its interface went bus off or
/// down.
pub fn no_frame_is_forgotten(config: BusConfig)
    ensures { (past : List Entry) → IsLegal config past → (i : ℕ) →
        length (sent_by past i)
        ≡ done_count past i + (length (sent_by past i) - gone_count past i) + lost_count past i }
{}

/// Each frame accepted for sending has one fate. The counts of an interface are the numbers of
/// frames with each fate.
pub fn counts_are_those_of_the_fates(config: BusConfig)
    ensures waiting { (past : List Entry) → IsLegal config past → (i : ℕ) →
        frames_with Waiting past i ≡ length (sent_by past i) - gone_count past i }
    ensures done { (past : List Entry) → IsLegal config past → (i : ℕ) →
        frames_with Done past i ≡ done_count past i }
    ensures lost { (past : List Entry) → IsLegal config past → (i : ℕ) →
        frames_with Lost past i ≡ lost_count past i }
{}

/// Frames are lost only when their interface goes bus off or down, and then all its waiting frames
/// are lost.
pub fn only_silence_loses_frames(config: BusConfig)
    ensures kept { (past : List Entry) → (e : Entry) → (i : ℕ) →
        goes_silent i e.event e.reply ≡ false → lost_count (e ∷ past) i ≡ lost_count past i }
    ensures lost { (past : List Entry) → (e : Entry) → IsLegal config (e ∷ past) → (i : ℕ) →
        goes_silent i e.event e.reply ≡ true →
        lost_count (e ∷ past) i
        ≡ lost_count past i + (length (sent_by past i) - gone_count past i) }
{}

// ---- items

/// A socket queues an offered item exactly if it queued fewer items before than its capacity plus
/// the items taken by then. It drops every other item.
pub fn items_find_room_in_turn(config: BusConfig)
    ensures offered { (past : List Entry) → (s : ℕ) →
        map (λ (o : Offer). o.item) (offers_to config past s) ≡ candidates_for config past s }
    ensures queued { (past : List Entry) → (s : ℕ) →
        queued_to config past s ≡ with_room (capacity_of past s) 0 (offers_to config past s) }
    ensures dropped { (past : List Entry) → (s : ℕ) →
        dropped_at config past s ≡ without_room (capacity_of past s) 0 (offers_to config past s) }
{}

/// Each item offered to a socket is queued or dropped. Each queued item is taken, or is unread at
/// the close of the socket. The close reports the unread and the dropped items.
pub fn each_item_is_counted(config: BusConfig)
    ensures offered { (past : List Entry) → (s : ℕ) →
        length (candidates_for config past s)
        ≡ length (queued_to config past s) + length (dropped_at config past s) }
    ensures queued { (past : List Entry) → (s : SocketId) → (k : Closed) →
        IsLegal config (closing s k ∷ past) →
        length (queued_to config past s.0) ≡ length (taken_from past s.0) + k.unread }
    ensures dropped { (past : List Entry) → (s : SocketId) → (k : Closed) →
        IsLegal config (closing s k ∷ past) → k.dropped ≡ length (dropped_at config past s.0) }
{}

/// Receive calls return the first queued items, in order.
pub fn items_are_taken_in_order(config: BusConfig)
    ensures { (past : List Entry) → IsLegal config past → (s : ℕ) →
        taken_from past s ≡ take (length (taken_from past s)) (queued_to config past s) }
{}

/// No queue of a socket or an interface exceeds its capacity.
pub fn queues_stay_within_their_capacity(config: BusConfig)
    ensures receive { (past : List Entry) → IsLegal config past → (s : ℕ) →
        length (queued_to config past s) - length (taken_from past s)
        ≤ capacity_of past s }
    ensures transmit { (past : List Entry) → IsLegal config past → (i : ℕ) →
        length (sent_by past i) - gone_count past i ≤ config.tx_capacity }
{}

// ---- sockets

/// No item is queued to a socket before its open or after its close.
pub fn only_open_sockets_receive(config: BusConfig)
    ensures before { (past : List Entry) → (i capacity : ℕ) → (s : SocketId) →
        IsLegal config (opening i capacity s ∷ past) → queued_to config past s.0 ≡ [] }
    ensures after { (later past : List Entry) → (s : SocketId) → (k : Closed) →
        IsLegal config (later ++ closing s k ∷ past) →
        queued_to config (later ++ closing s k ∷ past) s.0 ≡ queued_to config past s.0 }
{}

/// At most 64 sockets are open.
pub fn few_sockets_are_open(config: BusConfig)
    ensures { (past : List Entry) → IsLegal config past → length (open_sockets past) ≤ 64 }
{}

/// Sockets get the numbers 0, 1, 2 and so on as they are opened, so no number is used twice.
pub fn socket_numbers_are_never_used_again(config: BusConfig)
    ensures { (past : List Entry) → IsLegal config past →
        numbers_given past ≡ range_with_len 0 (length (places past)) }
{}

// ---- interfaces

/// An interface that is bus off or down has no waiting frame: all its accepted frames have left the
/// queue.
pub fn silent_interfaces_have_nothing_to_send(config: BusConfig)
    ensures gone { IsLongConfig config → (past : List Entry) → IsLegal config past → (i : ℕ) →
        is_silent (state_at config past i) ≡ true →
        gone_count past i ≡ length (sent_by past i) }
    ensures idle { IsLongConfig config → (past : List Entry) → IsLegal config past → (i : ℕ) →
        is_silent (state_at config past i) ≡ true → head_of past i ≡ None }
{}

/// An interface that is bus off or down takes part in no attempt. A frame sent on one of its
/// sockets is refused as `BusOff` or `Down`, or as `FdOff` if it is an FD frame and the socket has
/// not enabled FD frames. Its error counts stay the same until a restart.
pub fn silent_interfaces_take_no_part(config: BusConfig)
    ensures wins { (past : List Entry) → (m : ℕ) → (v : Verdict) → (t : Tried) →
        reply.Attempted (attempt.Tried t) ≡ legal_reply config past (event.Attempt m v) → (i : ℕ) →
        is_silent (state_at config past i) ≡ true → t.winner ≢ i }
    ensures accepts { (past : List Entry) → (m : ℕ) → (v : Verdict) → (t : Tried) →
        reply.Attempted (attempt.Tried t) ≡ legal_reply config past (event.Attempt m v) → (i : ℕ) →
        is_silent (state_at config past i) ≡ true → is_in i t.accepted ≡ false }
    ensures off { (past : List Entry) → (s : SocketId) → (f : CanFrame) →
        is_open past s.0 ≡ true → lacks_fd f (options_of past s.0) ≡ false →
        is_off (state_at config past (iface_of past s.0)) ≡ true →
        legal_reply config past (event.Send s f) ≡ reply.Refused refusal.BusOff }
    ensures down { (past : List Entry) → (s : SocketId) → (f : CanFrame) →
        is_open past s.0 ≡ true → lacks_fd f (options_of past s.0) ≡ false →
        is_down (state_at config past (iface_of past s.0)) ≡ true →
        legal_reply config past (event.Send s f) ≡ reply.Refused refusal.Down }
    ensures fd { (past : List Entry) → (s : SocketId) → (f : CanFrame) →
        is_open past s.0 ≡ true → lacks_fd f (options_of past s.0) ≡ true →
        legal_reply config past (event.Send s f) ≡ reply.Refused refusal.FdOff }
    ensures counts { (past : List Entry) → (e : Entry) → IsLegal config (e ∷ past) → (i : ℕ) →
        is_silent (state_at config past i) ≡ true → is_restart_of i e.event e.reply ≡ false →
        is_taken_down i e.event e.reply ≡ false →
        counts_of config (e ∷ past) i ≡ counts_of config past i }
{}

/// Taking an interface down keeps its error counts. The interface stays down until it is restarted
/// by hand: no attempt restarts it.
pub fn down_interfaces_stay_down(config: BusConfig)
    ensures goes { (past : List Entry) → (e : Entry) → (i : ℕ) →
        is_taken_down i e.event e.reply ≡ true →
        counts_of config (e ∷ past) i ≡ stepped (counts_of config past i) TakenDown }
    ensures stays { (past : List Entry) → (e : Entry) → (i : ℕ) →
        is_down (state_at config past i) ≡ true → is_restart_of i e.event e.reply ≡ false →
        is_down (state_at config (e ∷ past) i) ≡ true }
    ensures waits { (past : List Entry) → IsLegal config past → (i : ℕ) →
        is_down (state_at config past i) ≡ true → is_in i (restarted_next config past) ≡ false }
{}

/// An attempt tries the next frame of the next interface, and is idle if there is none.
pub fn attempts_try_what_is_next(config: BusConfig)
    ensures tried { (past : List Entry) → (m : ℕ) → (v : Verdict) → (t : Tried) →
        reply.Attempted (attempt.Tried t) ≡ legal_reply config past (event.Attempt m v) →
        next_head config past ≡ Some (t.winner, t.frame) }
    ensures idle { (past : List Entry) → (m : ℕ) → (v : Verdict) →
        next_head config past ≡ None →
        legal_reply config past (event.Attempt m v)
        ≡ reply.Attempted (attempt.Idle (restarted_next config past)) }
{}

/// An interface that does not exist sends no frame, and its error counts stay 0/0.
pub fn no_interface_beyond_the_last(config: BusConfig)
    ensures sent { (past : List Entry) → IsLegal config past → (i : ℕ) →
        config.ifaces ≤ i → sent_by past i ≡ [] }
    ensures counts { (past : List Entry) → IsLegal config past → (i : ℕ) →
        config.ifaces ≤ i → counts_of config past i ≡ at_start }
{}

// ---- records

/// Each entry of a legal history has a line in the text of a record.
pub fn legal_entries_have_lines(config: BusConfig)
    ensures { (past : List Entry) → IsLegal config past → All (IsSpelled config) past }
{}
