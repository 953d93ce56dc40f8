ghost use Rattle.std.specs.Prelude.{◌≡◌, ◌↔◌, ℕ, List, Option};
ghost use Rattle.can_arbiter.specs.Heads.{keys_of_heads, GoesFirst, HasNoHead};
ghost use Rattle.can_arbiter.specs.Keys.{IsWinner, IsIdle};
ghost use Rattle.can_frame.specs.Frames.{CanFrame};

/// At most one interface wins.
pub fn winner_is_unique()
    ensures { (keys : List (Option ℕ)) (v w : ℕ) → IsWinner keys v → IsWinner keys w → v ≡ w }
{}

/// If each interface holds the key of the frame at the head of its queue, the winner is the interface whose frame outranks all the
/// others. If frames have equal bits, the lower interface number wins. Nobody wins exactly if there is no frame.
pub fn winner_has_the_first_frame()
    ensures first { (heads : List (Option CanFrame)) (w : ℕ) →
        IsWinner (keys_of_heads heads) w ↔ ((frame : CanFrame) × GoesFirst heads w frame) }
    ensures none { (heads : List (Option CanFrame)) →
        IsIdle (keys_of_heads heads) ↔ HasNoHead heads }
{}
