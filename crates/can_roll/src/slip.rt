ghost use Rattle.std.specs.Prelude.{◌≡◌};

use crate::roll_name::RollName;
use crate::rule::View;
use atomic_table::Badge;
use std::marker::{Model, PhantomData};

/// A pass's part of a roll. To a contract it is the roll's number, the number of the pass, and the calls noted with this slip,
/// newest first.
#[derive(Drop)]
pub struct Slip<N: RollName> {
    pub(crate) badge: Badge<View>,
    pub(crate) number: u8,
    pub(crate) pass: u32,
    pub(crate) name: PhantomData<N>,
}

impl<N: RollName> Model for Slip<N> {
    ghost use Rattle.can_roll.specs.Rule.{calls_of, view_in, IsSlipBadge};
    ghost use Rattle.can_roll.specs.Seen.{SlipSeen};

    ghost Value = { SlipSeen };

    ghost view = { λ s.
        record { number = s.number; pass = s.pass; calls = calls_of (view_in s.badge.views) } };

    ghost invariant = { λ s.
        IsSlipBadge (N.roll s.number).passes s.pass s.badge.table_id s.badge.views };
}

impl<N: RollName> Slip<N> {
    /// Returns the number of the slip's roll.
    pub fn number(&self) -> u8
        ensures { result ≡ self.now.number }
    {
        self.number
    }

    /// Returns the pass of the slip.
    pub fn pass(&self) -> u32
        ensures { result ≡ self.now.pass }
    {
        self.pass
    }
}
