ghost use Rattle.std.specs.Prelude.{◌≡◌, ◌≤◌, ◌<◌, ◌-◌, ◌^◌, ℕ, true, false, List, [], ◌∷◌, ◌++◌, Option, None, Some, Ok, slice_get};
ghost use Rattle.can_rules.specs.Rules.{Head, won_by, chosen, deciding, after_chosen, usable, verdicts, gives_at, GivesAs, times_given, AreSwapped};
ghost use Rattle.can_rules.specs.Plans.{PlanSeen, no_plan, with_rule, without_rules, given, plan_after, decided_at, plan_spelling, HasOwnNumbers, numbered};
ghost use Rattle.can_rules.specs.RunFaults.{RunSeen, no_run, made_ready, rule_given, asked_run, is_later, run_with_plan, run_spelling, later_spelling, may_come};
ghost use Rattle.can_rules.specs.RuleLines.{given_words, given_line, nofaults_words, nofaults_line, IsOfLines, with_change};
ghost use Rattle.can_rules.specs.RuleWords.{rule_spelling};
ghost use Rattle.can_rules.specs.RuleText.{rule_words};
ghost use Rattle.can_frame.specs.Frames.{CanFrame, word_of};
ghost use Rattle.can_frame.specs.Names.{AreNames};
ghost use Rattle.can_fault.specs.Scripts.{lines_in};
ghost use Rattle.std.specs.List.{list_any};
ghost use Rattle.std.specs.Option.{option_map};
ghost use Rattle.can_fault.specs.Sources.{verdict_in};
ghost use Rattle.can_rules.specs.declared.rule.Rule.{Rule};
ghost use Rattle.can_rules.specs.declared.run_faults.Change.TheVariants as change;
ghost use Rattle.can_fault.specs.declared.verdict.Verdict.{Verdict};
ghost use Rattle.can_fault.specs.declared.verdict.Verdict.TheVariants.{Good};

/// A plan without rules gives no verdict, and attempts do not change it.
pub fn without_rules_nothing_is_given()
    ensures verdict { (head : Head) → chosen [] head ≡ None }
    ensures counts { (head : Head) → after_chosen [] head ≡ [] }
{}

/// A plan without rules gives the verdicts of its script lines, and attempts do not change it.
pub fn a_plan_without_rules_gives_what_its_lines_give()
    ensures verdict { (plan : PlanSeen) (attempt : ℕ) (head : Option (ℕ × CanFrame)) →
        plan.rules ≡ [] → given Good plan attempt head ≡ verdict_in plan.lines attempt }
    ensures after { (source : Verdict) (plan : PlanSeen) (attempt : ℕ)
        (head : Option (ℕ × CanFrame)) →
        plan.rules ≡ [] → plan_after source plan attempt head ≡ plan }
{}

/// A used-up rule has no effect: removing it changes no verdict.
pub fn a_used_up_rule_changes_nothing()
    ensures verdict { (rules : List Rule) (head : Head) →
        chosen (usable rules) head ≡ chosen rules head }
    ensures counts { (rules : List Rule) (head : Head) →
        usable (after_chosen (usable rules) head) ≡ usable (after_chosen rules head) }
    ensures run { (rules : List Rule) (heads : List Head) →
        verdicts (usable rules) heads ≡ verdicts rules heads }
{}

/// If the rule at a given place decides an attempt, the attempt gets that rule's verdict.
pub fn the_rule_that_gives_gives_its_own()
    ensures { (rules : List Rule) (head : Head) (place : ℕ) (rule : Rule) →
        slice_get rules place ≡ Some rule → gives_at place rules head ≡ true →
        chosen rules head ≡ Some rule.verdict }
{}

/// A rule for the next `n` attempts gives at most `n` verdicts, in any sequence of attempts.
pub fn a_rule_gives_at_most_its_number()
    ensures { (rules : List Rule) (heads : List Head) (place n : ℕ) (rule : Rule) →
        slice_get rules place ≡ Some rule → rule.left ≡ Some n →
        times_given place rules heads ≤ n }
{}

/// The order of two neighbouring rules matters only for an attempt that matches both.
pub fn order_matters_only_where_two_match()
    ensures verdict { (one other : List Rule) (head : Head) → AreSwapped one other →
        chosen one head ≡ chosen other head }
    ensures counts { (one other : List Rule) (head : Head) → AreSwapped one other →
        AreSwapped (after_chosen one head) (after_chosen other head) }
    ensures run { (one other : List Rule) (heads : List Head) → AreSwapped one other →
        verdicts one heads ≡ verdicts other heads }
{}

/// The verdict of an attempt is the verdict of the rule that decides it.
pub fn the_rule_that_decides_gives_the_verdict()
    ensures { (rules : List Rule) (head : Head) →
        chosen rules head ≡ option_map (λ (rule : Rule). rule.verdict) (deciding rules head) }
{}

/// Each rule has its own number, and no number is used twice. This holds after a rule is given, an
/// attempt is asked, or all rules end.
pub fn numbers_are_not_used_again()
    ensures none { HasOwnNumbers no_plan }
    ensures given { (rule : Rule) (plan : PlanSeen) →
        HasOwnNumbers plan → plan.taken < 2 ^ 64 - 1 → HasOwnNumbers (with_rule rule plan) }
    ensures asked { (source : Verdict) (plan : PlanSeen) (attempt : ℕ)
        (head : Option (ℕ × CanFrame)) →
        HasOwnNumbers plan → HasOwnNumbers (plan_after source plan attempt head) }
    ensures ended { (plan : PlanSeen) → HasOwnNumbers plan → HasOwnNumbers (without_rules plan) }
{}

/// If a run reports the number of a rule, that rule is the first of the current rules that gives the attempt a verdict, and its
/// verdict is the one reported.
pub fn the_rule_that_is_named_gave_the_verdict()
    ensures { (run : RunSeen) (head : Head) (verdict : Verdict) (number : ℕ) →
        rule_given run head verdict ≡ Some number →
        GivesAs (made_ready run).plan.rules head verdict number }
{}

/// A run without pending changes decides an attempt exactly as its plan does, and reports the same rule number.
pub fn a_run_without_changes_asks_as_its_plan()
    ensures after { (run : RunSeen) (winner : ℕ) (frame : CanFrame) → run.later ≡ [] →
        (asked_run run (won_by winner (word_of frame))).plan
        ≡ plan_after Good run.plan run.tried (Some (winner, frame)) }
    ensures rule { (run : RunSeen) (winner : ℕ) (frame : CanFrame) → run.later ≡ [] →
        rule_given run (won_by winner (word_of frame))
        (given Good run.plan run.tried (Some (winner, frame)))
        ≡ (decided_at run.plan run.tried (won_by winner (word_of frame))).rule }
{}

/// A text without change lines is read as a run that has the plan written in the text.
pub fn a_text_without_changes_spells_its_plan()
    ensures { (names : List (List ℕ)) (text : List ℕ) →
        list_any is_later (lines_in text) ≡ false →
        run_spelling names text ≡ run_with_plan (no_run names) (plan_spelling names text) }
{}

/// The line written when a rule is given is read back as that rule, given before the same attempt. A `nofaults` line is read back
/// as the end of all rules.
pub fn lines_are_read_as_what_they_are_of()
    ensures given { (names : List (List ℕ)) (words : List ℕ) (rule : Rule) (attempt : ℕ) →
        attempt < 10 ^ 10 → rule_spelling names words ≡ Ok rule →
        later_spelling names (given_words attempt words)
        ≡ Ok (record { attempt = attempt; change = change.Give rule }) }
    ensures ended { (names : List (List ℕ)) (attempt : ℕ) → attempt < 10 ^ 10 →
        later_spelling names (nofaults_words attempt)
        ≡ Ok (record { attempt = attempt; change = change.End }) }
{}

/// The words of a rule form one line: they contain no line feed.
pub fn what_spells_a_rule_is_one_line()
    ensures { (names : List (List ℕ)) (words : List ℕ) (rule : Rule) →
        rule_spelling names words ≡ Ok rule → lines_in words ≡ words ∷ [] }
{}

/// The words written for a numbered rule form one line, and are read back as that rule. This holds for any text from which the rule
/// was first read.
pub fn a_written_rule_is_read_again()
    ensures again { (names : List (List ℕ)) (given : List ℕ) (rule : Rule) (number : ℕ) →
        AreNames names → rule_spelling names given ≡ Ok rule →
        rule_spelling names (rule_words names (numbered number rule)) ≡ Ok rule }
    ensures line { (names : List (List ℕ)) (given : List ℕ) (rule : Rule) (number : ℕ) →
        AreNames names → rule_spelling names given ≡ Ok rule →
        lines_in (rule_words names (numbered number rule)) ≡
        rule_words names (numbered number rule) ∷ [] }
{}

/// A rule line appended to a text of whole lines adds that rule after the changes in the text. A `nofaults` line adds the end of
/// all rules in the same way.
pub fn lines_after_a_text_are_read_after_it()
    ensures given { (names : List (List ℕ)) (text words : List ℕ) (run : RunSeen) (rule : Rule)
        (attempt : ℕ) →
        IsOfLines text → run_spelling names text ≡ Ok run → may_come run.later attempt ≡ true →
        attempt < 10 ^ 10 → rule_spelling names words ≡ Ok rule →
        run_spelling names (text ++ given_line attempt words)
        ≡ Ok (with_change (record { attempt = attempt; change = change.Give rule }) run) }
    ensures ended { (names : List (List ℕ)) (text : List ℕ) (run : RunSeen) (attempt : ℕ) →
        IsOfLines text → run_spelling names text ≡ Ok run → may_come run.later attempt ≡ true →
        attempt < 10 ^ 10 →
        run_spelling names (text ++ nofaults_line (Some attempt))
        ≡ Ok (with_change (record { attempt = attempt; change = change.End }) run) }
{}
