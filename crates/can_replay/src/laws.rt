ghost use Rattle.std.specs.Prelude.{◌≡◌, ℕ, List, reverse};
ghost use Rattle.can_event.specs.Events.{IsConfig};
ghost use Rattle.can_bus.specs.Run.{AreAnswers};
ghost use Rattle.can_event.specs.declared.entry.Entry.{Entry};
ghost use Rattle.can_event.specs.declared.event.Event.{Event};
ghost use Rattle.can_event.specs.declared.reply.Reply.{Reply};
ghost use Rattle.can_replay.specs.Audits.{IsFirstWrongEntry};
ghost use Rattle.can_replay.specs.Histories.{IsHistory};
ghost use Rattle.can_replay.specs.Replies.{HadMemory, replies_after};

use can_bus::BusConfig;

// Laws about `replies_after`, the slow definition of the replies, and about the audit. The function bodies are empty: the clauses
// are the laws.

/// If no allocation of a bus fails, its replies to a list of events are the replies that `replies_after` defines.
pub fn a_bus_answers_so(config: BusConfig)
    ensures { (past : List Entry) (events : List Event) (replies : List Reply) →
        AreAnswers config past events replies → HadMemory replies →
        replies ≡ replies_after config past events }
{}

/// A legal history has no wrong entry. Any other list of entries has at most one first wrong entry. So the record determines the
/// result of an audit, unless an allocation fails.
pub fn at_most_one_entry_is_the_first_wrong(config: BusConfig)
    ensures legal { (entries : List Entry) (k : ℕ) →
        IsHistory config (reverse entries) → ¬ IsFirstWrongEntry config entries k }
    ensures one { IsConfig config → (entries : List Entry) (j k : ℕ) →
        IsFirstWrongEntry config entries j → IsFirstWrongEntry config entries k → j ≡ k }
{}
