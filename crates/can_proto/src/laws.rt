ghost use Rattle.std.specs.Prelude.{◌≡◌, ◌≤◌, ◌<◌, ◌^◌, ◌++◌, ◌∷◌, [], List, ℕ, Bool, Ok, All, IsTrue, true, false, length, flat_map, codes};
ghost use Rattle.can_frame.specs.FrameText.{IsItem};
ghost use Rattle.can_frame.specs.declared.item.Item.{Item as AnItem};
ghost use Rattle.can_proto.specs.Messages.{messages_of, given_from, has_mark};
ghost use Rattle.can_proto.specs.Causes.{cause_text};
ghost use Rattle.can_proto.specs.Words.{words_of};
ghost use Rattle.can_proto.specs.Verbs.{mode_has};
ghost use Rattle.can_proto.specs.Commands.{reading};
ghost use Rattle.can_proto.specs.CommandSpelling.{command_spelling, command_words, IsCommand, IsWord};
ghost use Rattle.can_proto.specs.declared.command.Mode.{Mode as AMode};
ghost use Rattle.can_proto.specs.declared.command.Command.{Command as ACommand};
ghost use Rattle.can_proto.specs.Spelling.{item_text, item_text_from, interfaces_text, answer_text, without_data, shown_origin, IsOrigin, FitsIn64, AreAlike};
ghost use Rattle.can_proto.specs.declared.answer.Answer.{Answer as AnAnswer};
ghost use Rattle.can_proto.specs.declared.answer.Origin.{Origin as AnOrigin};

use crate::answer::Cause;
use crate::message::Incoming;

/// A reader returns the same messages for a stream, however the stream is cut into pieces.
pub fn every_cut_gives_the_same_messages()
    ensures { (pieces : List (List ℕ)) →
        given_from [] pieces ≡ messages_of (flat_map (λ piece. piece) pieces) }
{}

/// At most 1,024 bytes between `<` and `>` are one message if there is no other mark among them. The bytes after `>` are read
/// separately.
pub fn bytes_between_marks_are_a_message()
    ensures { (inside rest : List ℕ) →
        has_mark inside ≡ false → length inside ≤ 1024 →
        messages_of (codes "<" ++ inside ++ codes ">" ++ rest)
        ≡ Incoming.Message inside ∷ messages_of rest }
{}

/// No two causes have the same text.
pub fn words_tell_one_cause()
    ensures { (one other : Cause) → cause_text one ≡ cause_text other → one ≡ other }
{}

/// Different items have different texts, and so do different timestamps. Without `errdata`, the text of an error message frame
/// shows only its class and its timestamp, but not its data. With origins, frames of different origins also have different texts.
pub fn texts_tell_items_apart()
    ensures whole { (i j : AnItem) (m n : ℕ) →
        IsItem i → IsItem j → m < 10 ^ 16 → n < 10 ^ 16 →
        item_text true i m ≡ item_text true j n → (i ≡ j) × (m ≡ n) }
    ensures without_data { (i j : AnItem) (m n : ℕ) →
        IsItem i → IsItem j → m < 10 ^ 16 → n < 10 ^ 16 →
        item_text false i m ≡ item_text false j n → (without_data i ≡ without_data j) × (m ≡ n) }
    ensures origins { (i j : AnItem) (o p : AnOrigin) (m n : ℕ) →
        IsItem i → IsItem j → IsOrigin o → IsOrigin p → m < 10 ^ 16 → n < 10 ^ 16 →
        item_text_from true o i m ≡ item_text_from true p j n →
        (i ≡ j) × (m ≡ n) × (shown_origin i o ≡ shown_origin j p) }
{}

/// Different lists of names have different texts. No such text equals the text of another reply or of an item.
pub fn names_tell_apart()
    ensures one_list { (one other : List (List ℕ)) →
        All IsWord one → All IsWord other →
        interfaces_text one ≡ interfaces_text other → one ≡ other }
    ensures no_answer { (answer : AnAnswer) (names : List (List ℕ)) →
        answer_text answer ≡ interfaces_text names → ⊥ }
    ensures no_item { (errdata : Bool) (i : AnItem) (m : ℕ) (names : List (List ℕ)) →
        item_text errdata i m ≡ interfaces_text names → ⊥ }
    ensures no_item_from { (errdata : Bool) (o : AnOrigin) (i : AnItem)
        (m : ℕ) (names : List (List ℕ)) →
        item_text_from errdata o i m ≡ interfaces_text names → ⊥ }
{}

/// The text of a command is read back as that command in each mode that allows it. A space before and after the text, as in
/// messages, makes no difference.
pub fn written_commands_are_read()
    ensures alone { (mode : AMode) (c : ACommand) →
        IsCommand c → IsTrue (mode_has mode (command_words c)) →
        reading mode (words_of (command_spelling c)) ≡ Ok c }
    ensures spaced { (mode : AMode) (c : ACommand) →
        IsCommand c → IsTrue (mode_has mode (command_words c)) →
        reading mode (words_of (codes " " ++ command_spelling c ++ codes " ")) ≡ Ok c }
{}

/// Different replies have different texts, except that the text of `stats` leaves out the error counters. No reply has the same
/// text as an item, with or without an origin.
pub fn answers_tell_apart()
    ensures one_answer { (one other : AnAnswer) →
        FitsIn64 one → FitsIn64 other → answer_text one ≡ answer_text other → AreAlike one other }
    ensures no_item { (answer : AnAnswer) (errdata : Bool) (i : AnItem) (m : ℕ) →
        FitsIn64 answer → answer_text answer ≡ item_text errdata i m → ⊥ }
    ensures no_item_from { (answer : AnAnswer) (errdata : Bool)
        (o : AnOrigin) (i : AnItem) (m : ℕ) →
        FitsIn64 answer → answer_text answer ≡ item_text_from errdata o i m → ⊥ }
{}
