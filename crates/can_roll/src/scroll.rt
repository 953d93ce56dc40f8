ghost use Rattle.std.specs.Prelude.{◌≡◌, []};
ghost use Rattle.can_roll.specs.Seen.{roll_seen, scroll_seen, scroll_with};

use crate::roll::{Roll, RollBlank};
use crate::roll_name::{RollName, ScrollName};
use crate::slip::Slip;
use can_record::PackedRecord;
use std::marker::Model;

/// The side of a scroll that hands entries out. To a contract it is the roll's number and the entries handed out so far, oldest
/// first.
#[derive(Drop)]
pub struct HandedOut<N: RollName> {
    roll: Roll<ScrollName<N>>,
}

impl<N: RollName> Model for HandedOut<N> {
    ghost use Rattle.std.specs.Prelude.{◌≡◌, [], ◌∷◌, reverse};
    ghost use Rattle.can_roll.specs.Lists.{row};
    ghost use Rattle.can_roll.specs.Seen.{ScrollSeen, scroll_seen};

    ghost Value = { ScrollSeen };

    ghost view = { λ h. scroll_seen h.roll.number (reverse (row h.roll.lists 0)) };

    ghost invariant = { λ h. h.roll.lists ≡ row h.roll.lists 0 ∷ [] };
}

/// The side of a scroll that takes entries. To a contract it is the roll's number and the entries handed out so far, oldest first.
#[derive(Drop)]
pub struct Scroll<N: RollName> {
    slip: Slip<ScrollName<N>>,
}

impl<N: RollName> Model for Scroll<N> {
    ghost use Rattle.std.specs.Prelude.{reverse};
    ghost use Rattle.can_roll.specs.Seen.{ScrollSeen, scroll_seen};

    ghost Value = { ScrollSeen };

    ghost view = { λ s. scroll_seen s.slip.number (reverse s.slip.calls) };
}

/// Turns the blank into the roll with this number, without passes, and into both sides of its scroll, without entries. The caller
/// shows that `N` gives the blank this number.
pub fn roll_with_scroll<N: RollName>(
    blank: RollBlank,
    number: u8,
) -> (Roll<N>, HandedOut<N>, Scroll<N>)
    requires { blank ≡ N.roll number }
    ensures roll { result.0 ≡ roll_seen number [] [] }
    ensures handed { result.1 ≡ scroll_seen number [] }
    ensures scroll { result.2 ≡ scroll_seen number [] }
{
    let RollBlank { passes, scroll } = blank;
    let mut roll: Roll<ScrollName<N>> = Roll::of(scroll, number);
    let slip = roll.enter();
    (
        Roll::of(passes, number),
        HandedOut { roll },
        Scroll { slip },
    )
}

impl<N: RollName> HandedOut<N> {
    /// Returns the number of the roll.
    pub fn number(&self) -> u8
        ensures { result ≡ self.now.number }
    {
        self.roll.number()
    }

    /// Hands out a block of entries to the holder of the scroll. The block is appended to the entries handed out before, which are
    /// the same on both sides. The caller shows that the scroll has this number.
    pub fn hand_out(&mut self, scroll: &mut Scroll<N>, block: &PackedRecord)
        requires { scroll.old.number ≡ self.old.number }
        ensures before { scroll.old.entries ≡ self.old.entries }
        ensures handed { self.new ≡ scroll_with block.now.entries self.old }
        ensures scroll { scroll.new ≡ scroll_with block.now.entries scroll.old }
    {
        self.roll.note_all(&mut scroll.slip, block);
    }

    /// Takes the scroll back for good. Its entries are the entries that were handed out. The caller shows that the scroll has this
    /// number.
    pub fn recall(&mut self, scroll: Scroll<N>)
        requires { scroll.number ≡ self.old.number }
        ensures entries { scroll.entries ≡ self.old.entries }
        ensures same { self.new ≡ self.old }
    {
        let Scroll { slip } = scroll;
        self.roll.recall(slip);
    }
}

impl<N: RollName> Scroll<N> {
    /// Returns the number of the scroll's roll.
    pub fn number(&self) -> u8
        ensures { result ≡ self.now.number }
    {
        self.slip.number()
    }
}
