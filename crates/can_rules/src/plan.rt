ghost use Rattle.std.specs.Prelude.{◌≡◌, ◌≤◌, length, true, IfSome, IfNone};
ghost use Rattle.can_rules.specs.Plans.{no_plan, IsSettled, IsUpToRules, head_in, ruled, decided, after_ruled, decided_at, plan_asked, with_rules, without_rules, SpellsRule, GivesRule, Injected, ReadsPlan, TakesPlanLine, at_word, refusal_of};
ghost use Rattle.can_rules.specs.Rules.{won_by};
ghost use Rattle.can_rules.specs.RuleWords.{is_rule};

use crate::rule::{Decision, Rule};
use crate::rule_words::{WrongWord, begins_as_rule, read_rule};
use crate::rules::{RuleRefusal, Rules};
use can_fault::{Script, ScriptError, Verdict};
use can_frame::{Frame, Iface, Names};
use std::alloc::Global;
use std::marker::Model;
use std::str;
use thiserror::Error;

/// Why a text is not a plan. Lines are numbered from 1.
#[derive(Debug, Clone, Copy, PartialEq, Eq, Error)]
pub enum PlanError {
    /// A line is neither a script line nor a rule, or an allocation failed.
    #[error("{0}")]
    Script(ScriptError),
    /// The line with this number is a rule, but 64 rules come before it.
    #[error("script line {0}: too many rules")]
    TooManyRules(usize),
}

/// The planned faults of a bus: the script lines, which give verdicts by attempt number, and the rules.
#[derive(Drop)]
pub struct Plan {
    script: Script,
    rules: Rules,
    // The number of rules taken so far.
    taken: u64,
}

impl Model for Plan {
    ghost use Rattle.std.specs.Coded.{codes};
    ghost use Rattle.can_fault.specs.Sources.{verdict_map_code};
    ghost use Rattle.can_rules.specs.Plans.{PlanSeen};

    ghost Value = { PlanSeen };

    ghost coded = { Prim.hlevel (codes, verdict_map_code) };

    ghost view = { λ p. record { lines = p.script; rules = p.rules; taken = p.taken } };
}

impl Plan {
    /// Returns a plan without script lines and rules, in which every attempt is good.
    pub fn new(alloc: Global) -> Plan
        ensures { result ≡ no_plan }
    {
        Plan {
            script: Script::new(alloc),
            rules: Rules::new(alloc),
            taken: 0,
        }
    }

    /// Reads a plan from a text, for a bus whose interfaces have these names. Returns an error for the first fault in the text.
    /// Each line is a script line or a rule. The running time is the same as for `Script::read`.
    pub fn read(alloc: Global, text: &str, names: &Names) -> Result<Plan, PlanError>
        ensures { ReadsPlan names.now text.now result }
    {
        let mut plan = Plan::new(alloc);
        let mut number = 0;
        for line in text.split('\n') {
            number += 1;
            if let Err(fault) = plan.take_line(line, number, names) {
                return Err(fault);
            }
        }
        Ok(plan)
    }

    /// Adds the line of a text that has this number. After an error, the plan must not be used.
    pub(crate) fn take_line(
        &mut self,
        line: &str,
        number: usize,
        names: &Names,
    ) -> Result<(), PlanError>
        ensures { TakesPlanLine names.now line.now number self.old result self.new }
    {
        if begins_as_rule(line) {
            return self.take_rule(line, number, names);
        }
        match self.script.take_line(line, number, names) {
            Ok(()) => Ok(()),
            Err(fault) => Err(PlanError::Script(fault)),
        }
    }

    // Adds the rule in the line with this number.
    fn take_rule(&mut self, line: &str, number: usize, names: &Names) -> Result<(), PlanError>
        requires { is_rule line.now ≡ true }
        ensures { TakesPlanLine names.now line.now number self.old result self.new }
    {
        let rule = match read_rule(line, names) {
            Ok(rule) => rule,
            Err(which) => return Err(which.at(number)),
        };
        match self.give(rule) {
            Ok(()) => Ok(()),
            Err(RuleRefusal::TooManyRules) => Err(PlanError::TooManyRules(number)),
            Err(_) => Err(PlanError::Script(ScriptError::NoMemory)),
        }
    }

    /// Adds a rule after all other rules and numbers it. Returns `TooManyRules` exactly if there are 64 rules. A refusal changes
    /// nothing.
    pub fn give(&mut self, mut rule: Rule) -> Result<(), RuleRefusal>
        ensures { GivesRule rule self.old result self.new }
    {
        let number = self.taken.saturating_add(1);
        rule.number = number;
        self.rules.add(rule)?;
        self.taken = number;
        Ok(())
    }

    /// Returns the verdict of an attempt if the verdict does not depend on rules, or `None` if the rules decide. A fault of the
    /// source takes precedence, then the verdict of the script line, even if it is good. Without a script line and without rules
    /// the verdict is `Good`.
    pub fn verdict_without_rules(&self, source: Verdict, attempt: u64) -> Option<Verdict>
        ensures settled { IfSome result (λ v. IsSettled source self.now attempt v) }
        ensures open { IfNone result (IsUpToRules source self.now attempt) }
    {
        match source {
            Verdict::Good => self.line_or_good(attempt),
            fault => Some(fault),
        }
    }

    // Returns the same verdict as `verdict_without_rules` for a source without a fault.
    fn line_or_good(&self, attempt: u64) -> Option<Verdict>
        ensures settled { IfSome result (λ v. IsSettled Verdict.Good self.now attempt v) }
        ensures open { IfNone result (IsUpToRules Verdict.Good self.now attempt) }
    {
        let line = self.script.line(attempt);
        if line.is_none() && self.rules.is_empty() {
            return Some(Verdict::Good);
        }
        line
    }

    /// Returns the verdict of the first rule that gives one to an attempt with this head, or `Good` if none does. Each rule is
    /// asked at most once.
    pub fn verdict_of_rules(&mut self, head: Option<(Iface, Frame)>) -> Verdict
        ensures verdict { result ≡ ruled self.old.rules (head_in head) }
        ensures after { self.new ≡ with_rules (after_ruled self.old.rules (head_in head)) self.old }
    {
        self.decision_of_rules(head).verdict
    }

    /// Returns the same verdict as `verdict_of_rules`, with the number of the rule that gives it.
    pub fn decision_of_rules(&mut self, head: Option<(Iface, Frame)>) -> Decision
        ensures decision { result ≡ decided self.old.rules (head_in head) }
        ensures after { self.new ≡ with_rules (after_ruled self.old.rules (head_in head)) self.old }
    {
        match head {
            Some((winner, frame)) => self.rules.decision(winner, frame.word()),
            None => Decision::good(),
        }
    }

    /// Returns the decision for the attempt with this number if the source has no fault. `winner` is the interface that wins the
    /// attempt, and `word` is the identifier word of its frame. A script line takes precedence over the rules.
    pub(crate) fn decision(&mut self, attempt: u64, winner: Iface, word: u32) -> Decision
        ensures decision { result ≡ decided_at self.old attempt (won_by winner word) }
        ensures after { self.new ≡ plan_asked self.old attempt (won_by winner word) }
    {
        match self.script.line(attempt) {
            Some(verdict) => Decision::without_rule(verdict),
            None => self.rules.decision(winner, word),
        }
    }

    /// Reads a rule from a text, for a bus whose interfaces have these names, and adds it after all other rules. A refusal changes
    /// nothing. The refusals, in order of precedence: `BadRule` or `UnknownInterface` for the first wrong word; `TooManyRules` if
    /// there are 64 rules; `NoMemory`.
    pub fn inject(&mut self, text: &[u8], names: &Names) -> Result<(), RuleRefusal>
        ensures { Injected names.now text.now self.old result self.new }
    {
        let rule = spelled_rule(text, names)?;
        self.give(rule)
    }

    /// Returns the number of rules that are not used up.
    pub fn rules(&self) -> usize
        ensures rules { result ≡ length self.now.rules }
        ensures few { result ≤ 64 }
    {
        self.rules.len()
    }

    /// Returns the rules that are not used up, in the order in which they were given.
    pub(crate) fn rules_left(&self) -> &[Rule]
        ensures { result.now ≡ self.now.rules }
    {
        self.rules.as_slice()
    }

    /// Returns the number of rules taken so far. It is also the number of the last rule taken.
    pub(crate) fn taken(&self) -> u64
        ensures { result ≡ self.now.taken }
    {
        self.taken
    }

    /// Ends all rules. The script lines remain.
    pub fn end_rules(&mut self)
        ensures { self.new ≡ without_rules self.old }
    {
        self.rules.clear();
    }
}

/// Reads a rule from a text, for a bus whose interfaces have these names. Returns `BadRule` or `UnknownInterface` for the first
/// wrong word.
pub fn spelled_rule(text: &[u8], names: &Names) -> Result<Rule, RuleRefusal>
    ensures { SpellsRule names.now text.now result }
{
    let Ok(text) = str::from_utf8(text) else {
        return Err(RuleRefusal::BadRule);
    };
    match read_rule(text, names) {
        Ok(rule) => Ok(rule),
        Err(which) => Err(which.refusal()),
    }
}

impl WrongWord {
    // Returns the refusal that reports this wrong word.
    fn refusal(self) -> RuleRefusal
        ensures { result ≡ refusal_of self }
    {
        match self {
            WrongWord::UnknownInterface => RuleRefusal::UnknownInterface,
            _ => RuleRefusal::BadRule,
        }
    }

    /// Returns the error that reports this wrong word in the line with this number.
    pub(crate) fn at(self, number: usize) -> PlanError
        ensures { result ≡ at_word number self }
    {
        match self {
            WrongWord::UnknownInterface => PlanError::Script(ScriptError::UnknownInterface(number)),
            _ => PlanError::Script(ScriptError::BadLine(number)),
        }
    }
}
