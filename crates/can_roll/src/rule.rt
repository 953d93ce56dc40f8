use atomic_table::{Join, Play, Split, TableRule};
use can_event::Entry;
use std::collections::LinkedList;
use std::marker::{Brand, PhantomData};

/// What one seat of the table knows. It is for contracts only: the program never makes a value of this type.
pub enum View {
    /// The seat of a roll. It knows the calls of each pass and the passes called in, oldest first. Until `Return` it also knows the
    /// list of calls that the last pass brought.
    OfRoll(LinkedList<LinkedList<Entry>>, LinkedList<u64>, LinkedList<LinkedList<Entry>>),
    /// The seat of a slip. It knows the number of its pass and the calls of that pass.
    OfSlip(u64, LinkedList<Entry>),
    /// The seat of a slip after its pass was called in.
    Spent,
}

/// The rule that ties slips to their roll.
pub struct Law;

impl<S> TableRule<S, View, ()> for Law {
    ghost use Rattle.std.specs.Prelude.{[]};
    ghost use Rattle.can_roll.specs.declared.rule.View.TheVariants.{OfRoll};
    ghost use Rattle.can_roll.specs.Rule.{IsRolled};

    ghost holds = { λ _ s. IsRolled s.words s.views };

    ghost first = { λ _. OfRoll [] [] [] };
}

/// The step in which the roll hands out a slip of the next pass.
pub struct Enters;

impl Split<View> for Enters {
    ghost use Rattle.can_roll.specs.Rule.{pass_entered, newcomer};

    ghost left = { pass_entered };

    ghost right = { newcomer };
}

/// The step in which the roll calls a pass in and the slip is spent.
pub struct CallsIn;

impl Join<View> for CallsIn {
    ghost use Rattle.can_roll.specs.declared.rule.View.TheVariants.{Spent};
    ghost use Rattle.can_roll.specs.Rule.{called_in};

    ghost both = { called_in };

    ghost spent = { Spent };
}

/// A load that returns the calls that the last pass called in has brought.
pub struct Return;

impl<S> Play<S, View> for Return {
    ghost use Rattle.can_roll.specs.Rule.{Returns};

    ghost then = { Returns };
}

/// A load that notes calls of the last pass called in.
pub struct Note<C> {
    call: PhantomData<C>,
}

impl<S, C: Says> Play<S, View> for Note<C> {
    ghost use Rattle.can_roll.specs.Rule.{Notes};

    ghost then = { Notes C.said };
}

/// The step in which the roll sends the last pass called in out again, with a new slip.
pub struct Sends;

impl Split<View> for Sends {
    ghost use Rattle.can_roll.specs.Rule.{sent_out, slip_sent};

    ghost left = { sent_out };

    ghost right = { slip_sent };
}

/// Names calls with their replies, newest first, for contracts only.
pub trait Says {
    ghost use Rattle.std.specs.Prelude.{List};
    ghost use Rattle.can_event.specs.declared.entry.Entry.{Entry};

    ghost said: { List Entry };
}

impl Says for Brand {
    ghost use Rattle.std.specs.Prelude.{[]};

    ghost said = { [] };
}
