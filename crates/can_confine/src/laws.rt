ghost use Rattle.std.specs.Prelude.{◌≡◌, ◌<◌, ◌≤◌, ℕ, List, true, nat_le, replicate};
ghost use Rattle.can_confine.specs.Confinement.{ErrorCounts, Step, stepped, all_stepped, at_start, state_of, is_off, is_down, severity};
ghost use Rattle.can_confine.specs.Confinement.Step.{TransmitError, ReceiveError, GoodTransmission, GoodReception, TakenDown};

/// If both counts start at 0, the interface is bus off after 32 or more transmit errors in a row, and not after fewer.
pub fn thirty_two_errors_take_off()
    ensures { (n : ℕ) →
        is_off (state_of (all_stepped at_start (replicate n TransmitError))) ≡ nat_le 32 n }
{}

/// The counts of an interface that is not bus off stay within their limits after every step.
pub fn counts_stay_in_limits()
    ensures transmit { (c : ErrorCounts) → (s : Step) → c.tec < 256 → (stepped c s).tec ≤ 263 }
    ensures receive { (c : ErrorCounts) → (s : Step) → c.rec ≤ 255 → (stepped c s).rec ≤ 255 }
{}

/// A good transmission or reception never makes the state worse.
pub fn good_steps_never_worsen()
    ensures transmission { (c : ErrorCounts) →
        severity (state_of (stepped c GoodTransmission)) ≤ severity (state_of c) }
    ensures reception { (c : ErrorCounts) →
        severity (state_of (stepped c GoodReception)) ≤ severity (state_of c) }
{}

/// An error never makes the state better.
pub fn errors_never_better()
    ensures transmit { (c : ErrorCounts) →
        severity (state_of c) ≤ severity (state_of (stepped c TransmitError)) }
    ensures receive { (c : ErrorCounts) →
        c.rec ≤ 255 → severity (state_of c) ≤ severity (state_of (stepped c ReceiveError)) }
{}

/// The receive count alone never makes an interface bus off.
pub fn receive_count_never_takes_off()
    ensures { (c : ErrorCounts) → (r : ℕ) →
        is_off (state_of (record c { rec = r })) ≡ is_off (state_of c) }
{}

/// An interface that was taken down stays down through all later steps. Its counts do not change when it goes down.
pub fn only_a_restart_brings_up()
    ensures stays { (c : ErrorCounts) → (ss : List Step) → c.down ≡ true →
        is_down (state_of (all_stepped c ss)) ≡ true }
    ensures transmit { (c : ErrorCounts) → (stepped c TakenDown).tec ≡ c.tec }
    ensures receive { (c : ErrorCounts) → (stepped c TakenDown).rec ≡ c.rec }
{}
