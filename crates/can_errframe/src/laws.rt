ghost use Rattle.std.specs.Prelude.{◌≡◌, ◌↔◌, ℕ, true, false, IsNone, IfSome, None, is_some, slice_index, not};
ghost use Rattle.can_frame.specs.declared.iface.IfaceSet.{IfaceSet};
ghost use Rattle.can_confine.specs.Confinement.{ErrorCounts, state_of, is_off, is_down};
ghost use Rattle.can_fault.specs.declared.verdict.LocalKind.{LocalKind};
ghost use Rattle.can_fault.specs.declared.verdict.Verdict.TheVariants.{Good, Local};
ghost use Rattle.can_attempt.specs.declared.class.Class.{Class};
ghost use Rattle.can_attempt.specs.declared.class.Class.TheVariants.{Done};
ghost use Rattle.can_attempt.specs.Attempts.{Transmission, class_of, is_done, is_among, receivers, steps_at};
ghost use Rattle.can_errframe.specs.ErrorMessages.{state_message, fault_message, is_receive_error, receiver_role};
ghost use Rattle.can_errframe.specs.declared.role.Role.{Role};
ghost use Rattle.can_errframe.specs.declared.role.Role.TheVariants.{Winner};

/// If an interface is not down, there is no state frame exactly if its state stays the same. If it is down, there is no
/// state frame.
pub fn state_frames_report_changes()
    ensures changes { (old new : ErrorCounts) → is_down (state_of new) ≡ false →
        IsNone (state_message old new) ↔ (state_of old ≡ state_of new) }
    ensures down { (old new : ErrorCounts) → is_down (state_of new) ≡ true →
        IsNone (state_message old new) }
{}

/// A state frame is a bus off frame, of class 0x040, exactly if the new state is bus off.
pub fn bus_off_has_its_own_class()
    ensures { (old new : ErrorCounts) →
        IfSome (state_message old new) (λ e. (e.class ≡ 0x040) ↔ (is_off (state_of new) ≡ true)) }
{}

/// Any other state frame has the transmit error count in byte 6 and the receive error count in byte 7.
pub fn counts_are_in_their_bytes()
    ensures { (old new : ErrorCounts) →
        is_off (state_of new) ≡ false →
        IfSome (state_message old new) (λ e. (slice_index e.bytes 6 ≡ new.tec)
        × (slice_index e.bytes 7 ≡ new.rec)) }
{}

/// An attempt without a fault has no fault frames.
pub fn good_attempts_report_nothing()
    ensures { (role : Role) → fault_message Done Good role ≡ None }
{}

/// The set of interfaces that a local fault names does not change the fault frames.
pub fn named_interfaces_make_no_difference()
    ensures { (class : Class) (s z : IfaceSet) (kind : LocalKind) (role : Role) →
        fault_message class (Local s kind) role ≡ fault_message class (Local z kind) role }
{}

/// The winner of an attempt gets a fault frame exactly if the attempt is not done.
pub fn winner_gets_each_failure()
    ensures { (t : Transmission) →
        is_some (fault_message (class_of t) t.verdict Winner) ≡ not (is_done (class_of t)) }
{}

/// A receiver gets a fault frame exactly if the attempt gives it a receive error.
pub fn receivers_get_each_error()
    ensures { (t : Transmission) (i : ℕ) →
        is_among i (receivers t) ≡ true →
        is_some (fault_message (class_of t) t.verdict (receiver_role t i))
        ≡ is_receive_error (steps_at i t) }
{}
