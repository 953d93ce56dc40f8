use can_fault::Verdict;
use can_filter::Filter;
use can_frame::{Iface, IfaceSet};

/// A fault rule, with the counts that remain.
#[derive(Debug, Clone, Copy, PartialEq, Eq)]
pub struct Rule {
    /// The senders whose attempts match, or `None` if all senders match.
    pub senders: Option<IfaceSet>,
    /// The filter that the frame's identifier word has to pass.
    pub filter: Filter,
    /// The number of matching attempts that the rule will still skip.
    pub skip: u32,
    /// The number of verdicts that the rule can still give, or `None` if it is never used up.
    pub left: Option<u32>,
    /// The verdict that the rule gives.
    pub verdict: Verdict,
    /// The number of the rule in its plan, counted from 1. It is 0 until a plan takes the rule.
    pub number: u64,
}

/// What the rules decide about an attempt.
#[derive(Debug, Clone, Copy, PartialEq, Eq)]
pub struct Decision {
    /// The verdict. It is `Good` if no rule gives a verdict.
    pub verdict: Verdict,
    /// The number of the rule that gives the verdict, or `None` if no rule does.
    pub rule: Option<u64>,
}

impl Decision {
    ghost use Rattle.std.specs.Prelude.{◌≡◌, None};
    ghost use Rattle.can_rules.specs.Rules.{decision_by, without_rule};

    /// Returns the decision `Good`, which no rule gives.
    pub(crate) fn good() -> Decision
        ensures { result ≡ decision_by None }
    {
        Decision::without_rule(Verdict::Good)
    }

    /// Returns a decision with this verdict, which comes from no rule.
    pub(crate) fn without_rule(verdict: Verdict) -> Decision
        ensures { result ≡ without_rule verdict }
    {
        Decision {
            verdict,
            rule: None,
        }
    }
}

impl Rule {
    ghost use Rattle.std.specs.Prelude.{◌≡◌};
    ghost use Rattle.can_rules.specs.Rules.{is_used_up, rule_matches, verdict_by_rule, asked_rule, won_by};

    /// Returns whether the rule can give no more verdicts.
    pub fn is_used_up(&self) -> bool
        ensures { result ≡ is_used_up self.now }
    {
        match self.left {
            Some(left) => left == 0,
            None => false,
        }
    }

    // Returns whether the rule matches an attempt at a frame with this identifier word.
    fn matches(&self, winner: Iface, word: u32) -> bool
        ensures { result ≡ rule_matches self.now (won_by winner word) }
    {
        let is_from = match self.senders {
            Some(senders) => senders.contains(winner),
            None => true,
        };
        is_from && self.filter.matches(word)
    }

    /// Returns the verdict that the rule gives to an attempt, if any, and counts the attempt.
    pub(crate) fn ask(&mut self, winner: Iface, word: u32) -> Option<Verdict>
        ensures verdict { result ≡ verdict_by_rule self.old (won_by winner word) }
        ensures counts { self.new ≡ asked_rule self.old (won_by winner word) }
    {
        if self.is_used_up() || !self.matches(winner, word) {
            return None;
        }
        if self.skip > 0 {
            self.skip -= 1;
            return None;
        }
        if let Some(left) = self.left {
            self.left = Some(left - 1);
        }
        Some(self.verdict)
    }
}
