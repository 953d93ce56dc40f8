ghost use Rattle.std.specs.Prelude.{◌≡◌, ◌↔◌, ℕ, Bool, List, [], flat_map};
ghost use Rattle.can_proto.specs.Messages.{messages_of};
ghost use Rattle.can_dialog.specs.declared.stage.Dialog.{Dialog};
ghost use Rattle.can_dialog.specs.Sessions.{TakesTurns, Feeds};
ghost use Rattle.can_dialog.specs.Lives.{Act, Lives, IsCalled, turns_of, heard_in};

use crate::port::Port;
use can_proto::laws::every_cut_gives_the_same_messages;

// Laws about sessions over any port. Each clause is one law.

/// It makes no difference how a stream is cut into pieces. A port and a session can reach a state and write a text from pieces fed
/// one after another exactly if they can from the whole stream fed at once.
pub fn every_cut_says_the_same<P: Port>()
    ensures { (moment : ℕ) (before after : Dialog) (pieces : List (List ℕ))
        (p q : P) (text : List ℕ) →
        Feeds P.step moment before [] pieces p q text after
        ↔ TakesTurns P.step moment before (messages_of (flat_map (λ piece. piece) pieces))
        p q text after }
{
    every_cut_gives_the_same_messages();
}

/// A session writes exactly the text of its turns, in order, given the replies of the port. The turns are those of the session's
/// calls. Their input is the messages of the whole stream, no matter how the stream was cut into pieces.
pub fn calls_come_to_turns<P: Port>()
    ensures texts { (before after : Dialog) (calls : List (Act (List ℕ)))
        (p q : P) (text : List ℕ) →
        IsCalled P.step before [] calls p q text after →
        (forgotten : List Bool) × Lives P.step before forgotten (turns_of [] calls) p q text after }
    ensures heard { (calls : List (Act (List ℕ))) →
        heard_in (turns_of [] calls) ≡ messages_of (flat_map (λ piece. piece) (heard_in calls)) }
{
    every_cut_gives_the_same_messages();
}
