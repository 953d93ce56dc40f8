ghost use Rattle.std.specs.Prelude.{◌≡◌, ◌≢◌, ◌<◌, ℕ, List, length, true, false};
ghost use Rattle.can_frame.specs.Sets.{is_in};
ghost use Rattle.can_confine.specs.Confinement.{is_off, is_passive, is_silent, state_of};
ghost use Rattle.can_attempt.specs.Attempts.{Transmission, SameToSixteen, SameToTheLive, is_among, set_of, state_at, receivers, hit, is_global, class_of, accepted_in, counts_after, judged};
ghost use Rattle.can_attempt.specs.declared.ack_mode.AckMode.TheVariants.{Peers};
ghost use Rattle.can_attempt.specs.declared.class.Class.TheVariants.{Done, LastBit, Destroyed, NoAck};

/// The set that is made from a list of interfaces contains an interface exactly if the interface is in the list.
pub fn sets_hold_their_interfaces()
    ensures { (is : List ℕ) (i : ℕ) → i < 16 → is_in i (set_of is) ≡ is_among i is }
{}

/// A local fault that strikes only error passive receivers does not destroy the frame. These receivers miss the frame.
pub fn passive_receivers_destroy_nothing()
    ensures { (t : Transmission) → is_global t.verdict ≡ false →
        ((i : ℕ) → is_among i (hit t) ≡ true → is_passive (state_at t i) ≡ true) →
        class_of t ≢ Destroyed }
{}

/// A local fault at a receiver that is not error passive destroys the frame for all receivers.
pub fn active_receiver_destroys()
    ensures { (t : Transmission) (i : ℕ) →
        is_among i (hit t) ≡ true → is_passive (state_at t i) ≡ false → class_of t ≡ Destroyed }
{}

/// If nobody acknowledges the frame of an error passive transmitter, the transmitter's counts do not change. Missing
/// acknowledgements alone never take it off the bus.
pub fn passive_transmitter_waits()
    ensures { (t : Transmission) →
        class_of t ≡ NoAck → is_passive (state_at t t.winner) ≡ true →
        counts_after t t.winner ≡ t.counts t.winner }
{}

/// Interfaces that are bus off or down have no influence: their counts do not change the result for the other interfaces.
pub fn silent_interfaces_have_no_say()
    ensures class { (t u : Transmission) → SameToTheLive t u → class_of t ≡ class_of u }
    ensures receivers { (t u : Transmission) → SameToTheLive t u → receivers t ≡ receivers u }
    ensures counts { (t u : Transmission) → SameToTheLive t u → (i : ℕ) →
        i < t.count → is_silent (state_at t i) ≡ false → counts_after t i ≡ counts_after u i }
{}

/// A receiver that accepts the frame was not hit by a fault. The winner is never among the receivers that accept the frame or were
/// hit.
pub fn accepted_and_hit_are_apart()
    ensures apart { (t : Transmission) (i : ℕ) →
        is_among i (accepted_in (class_of t) t) ≡ true → is_among i (hit t) ≡ false }
    ensures accepted { (t : Transmission) → is_among t.winner (accepted_in (class_of t) t) ≡ false }
    ensures hit { (t : Transmission) → is_among t.winner (hit t) ≡ false }
{}

/// If the receivers acknowledge, a frame that was sent without being destroyed was accepted by at least one receiver.
pub fn acknowledged_frames_are_accepted()
    ensures done { (t : Transmission) → t.ack ≡ Peers → class_of t ≡ Done →
        0 < length (accepted_in Done t) }
    ensures last_bit { (t : Transmission) → t.ack ≡ Peers → class_of t ≡ LastBit →
        0 < length (accepted_in LastBit t) }
{}

/// An attempt takes no interface off the bus except its winner.
pub fn winner_alone_goes_off()
    ensures { (t : Transmission) (i : ℕ) → i ≢ t.winner →
        is_off (state_of (counts_after t i)) ≡ is_off (state_at t i) }
{}

/// The result of an attempt depends only on the counts at the sixteen places of a bus.
pub fn sixteen_places_decide()
    ensures { (t u : Transmission) → SameToSixteen t u → judged t ≡ judged u }
{}
