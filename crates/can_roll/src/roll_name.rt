use std::marker::{Brand, PhantomData};

/// Names one roll and its scroll for each number from 0 to 15. The trait is for contracts only: it has no functions.
pub trait RollName {
    ghost use Rattle.std.specs.Prelude.{ℕ};
    ghost use Rattle.can_roll.specs.Rule.{RollId};

    ghost roll: { ℕ → RollId };
}

impl RollName for Brand {
    ghost use Rattle.can_roll.specs.Rule.{no_roll};

    ghost roll = { λ _. no_roll };
}

/// Names the scrolls of the rolls that `N` names.
#[derive(Drop)]
pub struct ScrollName<N> {
    name: PhantomData<N>,
}

impl<N: RollName> RollName for ScrollName<N> {
    ghost use Rattle.can_roll.specs.Rule.{at_scroll};

    ghost roll = { λ number. at_scroll (N.roll number) };
}
