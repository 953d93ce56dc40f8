//! The rule of a meter's table, and the kinds of step that keep the rule. These types exist only for contracts: no value of them is
//! ever made.

use crate::status::Status;
use atomic_table::{Join, Play, Split, TableRule};
use std::collections::LinkedList;

/// What a seat knows: for each interface a list of publications, and the lists of the gauges that it took back.
pub enum View {
    /// The seat of the keeper, with all publications.
    Keeps(LinkedList<LinkedList<Status>>, LinkedList<LinkedList<LinkedList<Status>>>),
    /// The seat of a gauge, with the publications that the gauge has seen.
    Watches(LinkedList<LinkedList<Status>>, LinkedList<LinkedList<LinkedList<Status>>>),
    /// The seat of a gauge that was taken back.
    Spent,
}

/// The rule: each word holds the newest publication of its interface. The key of the table is the number of words.
pub struct Law;

impl<S> TableRule<S, View, usize> for Law {
    ghost use Rattle.std.specs.Prelude.{[]};
    ghost use Rattle.can_meter.specs.declared.rule.View.TheVariants.{Keeps};
    ghost use Rattle.can_meter.specs.Rule.{Metered};

    ghost holds = { λ count s. Metered count s.words s.views };

    ghost first = { λ _. Keeps [] [] };
}

/// A load that reads the newest publication.
pub struct Look;

impl<S> Play<S, View> for Look {
    ghost use Rattle.can_meter.specs.Rule.{LoadsPublications};

    ghost then = { LoadsPublications };
}

/// A load that returns the lists of a gauge that was taken back. Each of these lists is a suffix of the seat's own list.
pub struct Return;

impl<S> Play<S, View> for Return {
    ghost use Rattle.can_meter.specs.Rule.{ReturnsOldLists};

    ghost then = { ReturnsOldLists };
}

/// A store of a new publication.
pub struct Publish;

impl<S> Play<S, View> for Publish {
    ghost use Rattle.can_meter.specs.Rule.{Stores};

    ghost then = { Stores };
}

/// The step that adds the first gauge, which has seen nothing, to the keeper.
pub struct Opens;

impl Split<View> for Opens {
    ghost use Rattle.can_meter.specs.Rule.{new_gauge};

    ghost left = { λ v. v };

    ghost right = { new_gauge };
}

/// The step that adds a second gauge, which has seen the same publications.
pub struct Copies;

impl Split<View> for Copies {
    ghost use Rattle.can_meter.specs.Rule.{watcher};

    ghost left = { λ v. v };

    ghost right = { watcher };
}

/// The step in which a seat takes back a gauge.
pub struct TakesIn;

impl Join<View> for TakesIn {
    ghost use Rattle.can_meter.specs.declared.rule.View.TheVariants.{Spent};
    ghost use Rattle.can_meter.specs.Rule.{seat_taken_in};

    ghost both = { seat_taken_in };

    ghost spent = { Spent };
}
