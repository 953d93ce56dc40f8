ghost use Rattle.std.specs.Prelude.{◌≡◌, ◌==◌, [], ◌≤◌, length};
ghost use Rattle.can_rules.specs.Rules.{deciding, decision_by, after_chosen, won_by, usable, AddsRule};

use crate::rule::{Decision, Rule};
use can_frame::Iface;
use std::alloc::Global;
use std::marker::Model;
use thiserror::Error;

/// The largest number of rules that a bus can have.
pub const MAX_RULES: usize = 64;

/// Why a rule was refused.
#[derive(Debug, Clone, Copy, PartialEq, Eq, Error)]
pub enum RuleRefusal {
    /// The text is not a rule.
    #[error("bad rule")]
    BadRule,
    /// The text names an interface that the bus does not have. Everything before that name is valid.
    #[error("no such interface")]
    UnknownInterface,
    /// There are already 64 rules.
    #[error("too many rules")]
    TooManyRules,
    #[error("no memory")]
    NoMemory,
}

/// At most 64 rules, in the order in which they were given. Used-up rules are removed.
#[derive(Drop)]
pub struct Rules {
    rules: Vec<Rule>,
}

impl Model for Rules {
    ghost use Rattle.std.specs.Prelude.{List, length, ◌≤◌};
    ghost use Rattle.can_rules.specs.declared.rule.Rule.{Rule};

    ghost Value = { List Rule };

    ghost view = { λ r. r.rules.items };

    ghost invariant = { λ r. length r.rules.items ≤ 64 };
}

impl Rules {
    /// Returns an empty list of rules.
    pub fn new(alloc: Global) -> Rules
        ensures { result ≡ [] }
    {
        Rules {
            rules: Vec::new(alloc),
        }
    }

    /// Returns the decision of the rules about an attempt. If the attempt uses up a rule, that rule is removed.
    pub fn decision(&mut self, winner: Iface, word: u32) -> Decision
        ensures decision { result ≡ decision_by (deciding self.old (won_by winner word)) }
        ensures counts { self.new ≡ usable (after_chosen self.old (won_by winner word)) }
    {
        let given = decision_among(&mut self.rules, winner, word);
        keep_unused(&mut self.rules);
        given
    }

    /// Adds a rule after all other rules. Returns `TooManyRules` exactly if there are 64 rules.
    pub fn add(&mut self, rule: Rule) -> Result<(), RuleRefusal>
        ensures { AddsRule rule self.old result self.new }
    {
        if self.rules.len() >= MAX_RULES {
            return Err(RuleRefusal::TooManyRules);
        }
        match self.rules.push(rule) {
            Ok(()) => Ok(()),
            Err(_) => Err(RuleRefusal::NoMemory),
        }
    }

    /// Returns the number of rules.
    pub fn len(&self) -> usize
        ensures len { result ≡ length self.now }
        ensures few { result ≤ 64 }
    {
        self.rules.len()
    }

    /// Returns all rules, in the order in which they were given.
    pub fn as_slice(&self) -> &[Rule]
        ensures { result.now ≡ self.now }
    {
        &self.rules
    }

    /// Returns whether there are no rules.
    pub fn is_empty(&self) -> bool
        ensures { result ≡ (length self.now == 0) }
    {
        self.rules.is_empty()
    }

    /// Ends all rules.
    pub fn clear(&mut self)
        ensures { self.new ≡ [] }
    {
        self.rules.clear();
    }
}

// Returns the decision of the first of these rules that gives the attempt a verdict.
fn decision_among(rules: &mut [Rule], winner: Iface, word: u32) -> Decision
    ensures decision { result ≡ decision_by (deciding rules.old (won_by winner word)) }
    ensures counts { rules.new ≡ after_chosen rules.old (won_by winner word) }
{
    for rule in rules.iter_mut() {
        let number = rule.number;
        if let Some(verdict) = rule.ask(winner, word) {
            return Decision {
                verdict,
                rule: Some(number),
            };
        }
    }
    Decision::good()
}

// Removes the used-up rules.
fn keep_unused(rules: &mut Vec<Rule>)
    ensures unused { rules.new.items ≡ usable rules.old.items }
    ensures few { length rules.new.items ≤ length rules.old.items }
{
    rules.retain(|rule| !rule.is_used_up());
}
