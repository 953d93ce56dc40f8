ghost use Rattle.std.specs.Prelude.{◌≡◌, true, IfOk, OnOk};
ghost use Rattle.can_frame.specs.Frames.{word_of};
ghost use Rattle.can_rules.specs.Rules.{won_by};
ghost use Rattle.can_rules.specs.RunFaults.{no_run, made_of, after_change, due_of, next_made, after_next, same_global, same_local, same_verdict, rule_now, asked_now, is_later, attempt_spelling, change_spelling, later_spelling, may_come, ReadsRunFaults, TakesRunLine};

use crate::plan::{Plan, PlanError};
use crate::rule::Rule;
use crate::rule_words::{WrongWord, read_rule};
use crate::rules::RuleRefusal;
use can_fault::script_lines::cut;
use can_fault::{GlobalKind, LocalKind, ScriptError, Verdict};
use can_frame::{Frame, Iface, Names, read_decimal};
use std::alloc::{AllocError, Global};
use std::marker::Model;

/// A change to the rules of a plan during a run.
#[derive(Debug, Clone, Copy, PartialEq, Eq)]
pub enum Change {
    /// This rule was given.
    Give(Rule),
    /// All rules ended.
    End,
}

/// A change and its place in the run.
#[derive(Debug, Clone, Copy, PartialEq, Eq)]
pub struct Later {
    /// The number of the attempt that follows the change. Only attempts that try a frame are numbered, from 0.
    pub attempt: u64,
    /// The change.
    pub change: Change,
}

/// The result of a change during a run.
#[derive(Debug, Clone, Copy, PartialEq, Eq)]
pub enum Made {
    /// The plan took this rule and gave it its number.
    Taken(Rule),
    /// The plan refused the rule, because it already had 64 rules.
    Refused,
    /// All rules ended.
    Ended,
}

/// The faults of a finished run: its plan, and the rules that were given or ended during the run. The value repeats these changes
/// in order, and finds the rule that gave an attempt its verdict.
#[derive(Drop)]
pub struct RunFaults {
    names: Names,
    plan: Plan,
    // The changes, in the order in which they happened.
    changes: Vec<Later>,
    // The number of changes that were repeated so far.
    made: usize,
    // The number of attempts that tried a frame so far.
    tried: u64,
}

impl Model for RunFaults {
    ghost use Rattle.std.specs.Prelude.{drop, length, ◌≤◌};
    ghost use Rattle.std.specs.Coded.{codes};
    ghost use Rattle.can_fault.specs.Sources.{verdict_map_code};
    ghost use Rattle.can_rules.specs.RunFaults.{RunSeen};

    ghost Value = { RunSeen };

    ghost coded = { Prim.hlevel (codes, verdict_map_code) };

    ghost view = { λ r. record {
      names = r.names;
      plan = r.plan;
      later = drop r.made r.changes.items;
      tried = r.tried;
    } };

    ghost invariant = { λ r. r.made ≤ length r.changes.items };
}

impl RunFaults {
    /// Returns a run without script lines, rules and changes, for a bus whose interfaces have these names.
    pub fn new(alloc: Global, names: Names) -> RunFaults
        ensures { result ≡ no_run names }
    {
        RunFaults {
            names,
            plan: Plan::new(alloc),
            changes: Vec::new(alloc),
            made: 0,
            tried: 0,
        }
    }

    /// Reads the faults of a run from a text, for a bus whose interfaces have these names. Returns an error for the first fault in
    /// the text.
    ///
    /// Each line is a line of a plan, `at N RULE`, or `at N nofaults`. The last two mean that the rule was given, or that all rules
    /// ended, before attempt `N`. Only attempts that try a frame are numbered, from 0. `N` has 1 to 10 decimal digits, and does not
    /// decrease from line to line. The running time is the same as for `Script::read`.
    pub fn read(alloc: Global, text: &str, names: Names) -> Result<RunFaults, PlanError>
        ensures { ReadsRunFaults names text.now result }
    {
        let mut faults = RunFaults::new(alloc, names);
        let mut number = 0;
        for line in text.split('\n') {
            number += 1;
            if let Err(fault) = faults.take_line(line, number) {
                return Err(fault);
            }
        }
        Ok(faults)
    }

    // Adds the line of the text that has this number.
    fn take_line(&mut self, line: &str, number: usize) -> Result<(), PlanError>
        ensures taken { TakesRunLine self.old.names line.now number self.old result self.new }
        ensures names { self.new.names ≡ self.old.names }
    {
        if begins_as_later(line) {
            self.take_later(line, number)
        } else {
            self.plan.take_line(line, number, &self.names)
        }
    }

    // Adds the change in the line with this number.
    fn take_later(&mut self, line: &str, number: usize) -> Result<(), PlanError>
        requires { is_later line.now ≡ true }
        ensures taken { TakesRunLine self.old.names line.now number self.old result self.new }
        ensures names { self.new.names ≡ self.old.names }
    {
        let next = match read_later(line, &self.names) {
            Ok(next) => next,
            Err(which) => return Err(which.at(number)),
        };
        if !may_come(&self.changes[self.made..], next.attempt) {
            return Err(PlanError::Script(ScriptError::BadLine(number)));
        }
        match self.changes.push(next) {
            Ok(()) => Ok(()),
            Err(_) => Err(PlanError::Script(ScriptError::NoMemory)),
        }
    }

    /// Returns the names of the interfaces of the bus.
    pub fn names(&self) -> &Names
        ensures { result.now ≡ self.now.names }
    {
        &self.names
    }

    /// Returns the rules that are not used up, in the order in which they were given. Before the first attempt and the first change
    /// these are the rules of the plan.
    pub fn rules_left(&self) -> &[Rule]
        ensures { result.now ≡ self.now.plan.rules }
    {
        self.plan.rules_left()
    }

    /// Returns the number of attempts that tried a frame so far. It is also the number of the next attempt.
    pub fn tried(&self) -> u64
        ensures { result ≡ self.now.tried }
    {
        self.tried
    }

    /// Makes the next change if it comes before the attempt with this number, and returns the result of the change. After an error,
    /// the value must not be used.
    pub fn make_next(&mut self, attempt: u64) -> Result<Option<Made>, AllocError>
        ensures made { IfOk result (λ made.
            made ≡ next_made attempt self.old.plan self.old.later) }
        ensures after { OnOk result (self.new ≡ after_next attempt self.old self.old.later) }
    {
        let Some(next) = due(&self.changes[self.made..], attempt) else {
            return Ok(None);
        };
        let made = next.change.make(&mut self.plan)?;
        self.made += 1;
        Ok(Some(made))
    }

    /// Returns the number of the rule that gave the next attempt this verdict, or `None` if no rule did. The caller asks about each
    /// attempt that tried a frame, in order, after making the changes before that attempt.
    pub fn rule_of(&mut self, winner: Iface, frame: &Frame, verdict: Verdict) -> Option<u64>
        ensures rule { result ≡ rule_now self.old (won_by winner (word_of frame.now)) verdict }
        ensures after { self.new ≡ asked_now self.old (won_by winner (word_of frame.now)) }
    {
        let decision = self.plan.decision(self.tried, winner, frame.word());
        self.tried = self.tried.saturating_add(1);
        if same_verdict(decision.verdict, verdict) {
            decision.rule
        } else {
            None
        }
    }
}

// Returns the first of these changes if it comes before the attempt with this number.
fn due(later: &[Later], attempt: u64) -> Option<Later>
    ensures { result ≡ due_of attempt later.now }
{
    match later.first() {
        Some(next) if next.attempt <= attempt => Some(*next),
        _ => None,
    }
}

impl Change {
    // Makes this change in a plan, and returns the result of the change.
    fn make(self, plan: &mut Plan) -> Result<Made, AllocError>
        ensures made { IfOk result (λ made. made ≡ made_of self plan.old) }
        ensures after { OnOk result (plan.new ≡ after_change self plan.old) }
    {
        match self {
            Change::Give(rule) => give(plan, &rule),
            Change::End => {
                plan.end_rules();
                Ok(Made::Ended)
            }
        }
    }
}

// Gives a rule to a plan. The plan refuses the rule if 64 rules are not used up.
fn give(plan: &mut Plan, rule: &Rule) -> Result<Made, AllocError>
    ensures made { IfOk result (λ made. made ≡ made_of (Change.Give rule.now) plan.old) }
    ensures after { OnOk result (plan.new ≡ after_change (Change.Give rule.now) plan.old) }
{
    match plan.give(*rule) {
        Ok(()) => {
            let mut taken = *rule;
            taken.number = plan.taken();
            Ok(Made::Taken(taken))
        }
        Err(RuleRefusal::TooManyRules) => Ok(Made::Refused),
        Err(_) => Err(AllocError),
    }
}

/// Returns whether a line begins with `at`, like the line of a change.
pub fn begins_as_later(line: &str) -> bool
    ensures { result ≡ is_later line.now }
{
    let (first, _) = cut(line);
    first == "at"
}

/// Reads the line of a change: `at`, a number, and then a rule or `nofaults`.
#[tactic(auto, unfolding(crate::specs::RunFaults::later_spelling))]
pub fn read_later(line: &str, names: &Names) -> Result<Later, WrongWord>
    ensures { result ≡ later_spelling names.now line.now }
{
    let (_, rest) = cut(line);
    let (number, rest) = cut(rest);
    let attempt = read_attempt(number).ok_or(WrongWord::Attempt)?;
    let change = read_change(rest, names)?;
    Ok(Later { attempt, change })
}

// Reads 1 to 10 decimal digits.
fn read_attempt(text: &str) -> Option<u64>
    ensures { result ≡ attempt_spelling text.now }
{
    read_decimal(text.as_bytes(), 10)
}

#[tactic(auto, unfolding(crate::specs::RunFaults::change_spelling))]
fn read_change(text: &str, names: &Names) -> Result<Change, WrongWord>
    ensures { result ≡ change_spelling names.now text.now }
{
    if text == "nofaults" {
        Ok(Change::End)
    } else {
        let rule = read_rule(text, names)?;
        Ok(Change::Give(rule))
    }
}

// Returns whether a change before this attempt may follow these changes.
fn may_come(later: &[Later], attempt: u64) -> bool
    ensures { result ≡ may_come later.now attempt }
{
    match later.last() {
        Some(before) => before.attempt <= attempt,
        None => true,
    }
}

// Returns whether two verdicts are the same.
fn same_verdict(one: Verdict, other: Verdict) -> bool
    ensures { result ≡ same_verdict one other }
{
    match (one, other) {
        (Verdict::Good, Verdict::Good) | (Verdict::LastBit, Verdict::LastBit) => true,
        (Verdict::Global(kind), Verdict::Global(more)) => same_global(kind, more),
        (Verdict::Local(seen, kind), Verdict::Local(also, more)) => {
            seen.0 == also.0 && same_local(kind, more)
        }
        _ => false,
    }
}

fn same_global(one: GlobalKind, other: GlobalKind) -> bool
    ensures { result ≡ same_global one other }
{
    match one {
        GlobalKind::Bit => matches!(other, GlobalKind::Bit),
        GlobalKind::Form => matches!(other, GlobalKind::Form),
    }
}

fn same_local(one: LocalKind, other: LocalKind) -> bool
    ensures { result ≡ same_local one other }
{
    match one {
        LocalKind::Stuff => matches!(other, LocalKind::Stuff),
        LocalKind::Crc => matches!(other, LocalKind::Crc),
        LocalKind::Form => matches!(other, LocalKind::Form),
    }
}
