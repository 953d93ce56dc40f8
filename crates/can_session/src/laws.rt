ghost use Rattle.std.specs.Prelude.{◌≡◌, ◌<◌, ◌≤◌, ◌*◌, ◌^◌, ◌∷◌, ◌++◌, ◌↔◌, ◌||◌, [], Bool, false, List, ℕ, Option, Some, None, Result, length};
ghost use Rattle.can_frame.specs.Frames.{CanFrame};
ghost use Rattle.can_fault.specs.declared.verdict.Verdict.{Verdict};
ghost use Rattle.can_event.specs.declared.attempt.Attempt.{Attempt};
ghost use Rattle.can_event.specs.declared.refusal.Refusal.{Refusal};
ghost use Rattle.can_rules.specs.declared.rule.Decision.{Decision};
ghost use Rattle.can_session.specs.Benches.{BenchState, is_attempt_due, next_moment_on, passed, said_decision, said_moment};
ghost use Rattle.can_session.specs.Wires.{Schedule, moment_on, schedule_after, set_to, tried_in};
ghost use Rattle.can_wire.specs.Schedules.{next_begin};
ghost use Rattle.can_session.specs.Lines.{FindsEnd, Given, Input, IsWithinLimits, Stops, StopsAfter, TakesInputLine, left_of, lines_of_text};
ghost use Rattle.can_session.specs.declared.lines.InputFault.{InputFault};
ghost use Rattle.can_session.specs.declared.lines.InputFault.TheVariants.{TooLong, Read};
ghost use Rattle.can_session.specs.IgnoredInput.{AreMessagesInOrder, begun_after, has_outside};

/// The calls of `Lines` together return the lines of the reader's text in order. If a fault occurs, they have returned all lines
/// before the line that is too long, or all lines that end with LF in the text read so far. The position in the input shows whether
/// the reader failed or the input is too long.
pub fn lines_given_are_those_of_the_text()
    ensures start { (text : List ℕ) (now : Input) →
        left_of now ≡ Some text → now.given ≡ 0 → Given text [] now }
    ensures next { (text : List ℕ) (lines : List (List ℕ)) (old new : Input) →
        Given text lines old → TakesInputLine old new → Given text (lines ++ new.line ∷ []) new }
    ensures forward { (old new : Input) → TakesInputLine old new → old.given < new.given }
    ensures end { (text : List ℕ) (lines : List (List ℕ)) (old new : Input) →
        Given text lines old → FindsEnd old new →
        (lines ≡ lines_of_text text) × (new.given ≡ length text) }
    ensures stop { (text : List ℕ) (lines : List (List ℕ)) (old new : Input) →
        (fault : InputFault) → Given text lines old → Stops fault old new → IsWithinLimits new →
        StopsAfter fault text lines new }
    ensures apart { (text : List ℕ) (lines others : List (List ℕ)) (now : Input) →
        StopsAfter Read text lines now → ¬ StopsAfter TooLong text others now }
{}

/// A stream has no bytes outside messages exactly if it consists of messages separated only by blanks, where the last message may
/// be unfinished. The result is the same whether two pieces of a stream are fed separately or together.
pub fn nothing_is_outside_messages_and_blanks()
    ensures order { (bytes : List ℕ) →
        (has_outside false bytes ≡ false) ↔ AreMessagesInOrder bytes (begun_after false bytes) }
    ensures outside { (begun : Bool) (piece more : List ℕ) →
        has_outside begun (piece ++ more)
        ≡ (has_outside begun piece || has_outside (begun_after begun piece) more) }
    ensures begun { (begun : Bool) (piece more : List ℕ) →
        begun_after begun (piece ++ more) ≡ begun_after (begun_after begun piece) more }
{}

/// On a bus without bit rates, each attempt happens at the moment that was set last. Its line does not show the moment, and the
/// attempt takes no time.
pub fn attempts_take_no_time_without_bit_rates()
    ensures moment { (b : BenchState) → b.bus.schedule ≡ None → next_moment_on b ≡ b.moment }
    ensures said { (b : BenchState) (moment : ℕ) → b.bus.schedule ≡ None →
        said_moment b.bus.schedule moment ≡ None }
    ensures passed { (waits : Bool) (b : BenchState) (v : Verdict)
        (outcome : Result Attempt Refusal) → b.bus.schedule ≡ None → passed waits v outcome b ≡ b }
    ensures due { (b : BenchState) (moment : ℕ) →
        b.bus.schedule ≡ None → is_attempt_due moment b ≡ false }
{}

/// If faults are not shown, the lines of attempts do not depend on the faults.
pub fn lines_have_faults_only_where_they_are_shown()
    ensures { (b : BenchState) (decision : Decision) → b.shows_faults ≡ false →
        said_decision b.shows_faults decision ≡ None }
{}

/// On a bus with bit rates, an attempt does not begin before the moment that is set or before the wire is free. After the attempt,
/// the wire becomes free no earlier than the attempt began. The moment of an attempt is never before the moment of the previous
/// attempt.
pub fn one_attempt_comes_after_another()
    ensures begins { (s : Schedule) (moment : ℕ) →
        (moment * 1000 ≤ next_begin (set_to moment s))
        × (s.wire.free ≤ next_begin (set_to moment s)) }
    ensures ends { (s : Schedule) (waits : Bool) (v : Verdict) (a : Attempt) →
        s.since < 10 ^ 16 → s.wire.free < 10 ^ 19 →
        next_begin s ≤ (schedule_after waits v a s).wire.free }
    ensures rises { (s : Schedule) (waits : Bool) (head : Option (ℕ × CanFrame)) →
        s.last ≤ moment_on waits head s }
    ensures last { (s : Schedule) (waits : Bool) (v : Verdict) (a : Attempt) →
        (schedule_after waits v a s).last ≡ moment_on waits (tried_in a) s }
{}
