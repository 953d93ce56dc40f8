//! Changes to the rules of a running bus, written as lines that [`RunFaults`](crate::RunFaults) reads.
ghost use Rattle.std.specs.Prelude.{◌≡◌, ◌++◌, Some, IfOk, OnErr, OnOk};
ghost use Rattle.can_rules.specs.Plans.{GivesRule};
ghost use Rattle.can_rules.specs.RuleLines.{never_lines, no_lines, nofaults_line, given_line, text_of_lines, with_end, with_given, with_none_left};

use crate::plan::Plan;
use crate::rule::Rule;
use crate::rules::{MAX_RULES, RuleRefusal};
use std::alloc::{AllocError, Global};
use std::io::Write;
use std::marker::Model;
use std::mem;

/// The largest number of bytes of lines that may be kept.
const MOST_BYTES: usize = 1 << 26;

/// The lines about rules that were given or ended during a run. The lines are kept here until a caller takes them. After
/// `keep_none` no lines are kept.
#[derive(Drop)]
pub struct RuleLines {
    text: Vec<u8>,
    // The attempt before which all rules ended, if no rule was given since then. Because of this field, ending the rules needs no
    // allocation.
    ended: Option<u64>,
    kept: bool,
}

impl Model for RuleLines {
    ghost use Rattle.can_rules.specs.RuleLines.{LinesSeen};

    ghost Value = { LinesSeen };

    ghost view = { λ l. record { text = l.text.items; ended = l.ended; kept = l.kept } };
}

impl RuleLines {
    /// Returns an empty list of lines.
    pub fn new(alloc: Global) -> RuleLines
        ensures { result ≡ no_lines }
    {
        RuleLines {
            text: Vec::new(alloc),
            ended: None,
            kept: true,
        }
    }

    /// Drops all lines, and keeps no lines from now on.
    pub fn keep_none(&mut self)
        ensures { self.new ≡ never_lines }
    {
        let alloc = *self.text.allocator();
        self.text = Vec::new(alloc);
        self.ended = None;
        self.kept = false;
    }

    /// Adds a rule to a plan, after all other rules. If lines are kept, it also adds a line for the rule, with these words and the
    /// number of the attempt that follows. Only attempts that try a frame are numbered. A refusal changes nothing. The refusals, in
    /// order of precedence: `TooManyRules` if there are 64 rules; `NoMemory`, also if 64 MiB of lines are kept.
    pub fn give(
        &mut self,
        plan: &mut Plan,
        rule: Rule,
        attempt: u64,
        words: &[u8],
    ) -> Result<(), RuleRefusal>
        ensures given { GivesRule rule plan.old result plan.new }
        ensures line { OnOk result (self.new ≡ with_given attempt words.now self.old) }
        ensures stays { OnErr result (self.new ≡ self.old) }
    {
        if plan.rules() == MAX_RULES {
            return Err(RuleRefusal::TooManyRules);
        }
        if !self.kept {
            return plan.give(rule);
        }
        let Ok(lines) = self.with_line(attempt, words) else {
            return Err(RuleRefusal::NoMemory);
        };
        if self.text.len() >= MOST_BYTES || self.text.reserve(lines.len()).is_err() {
            return Err(RuleRefusal::NoMemory);
        }
        plan.give(rule)?;
        let Ok(()) = self.text.extend_from_slice(&lines) else {
            unreachable!()
        };
        self.ended = None;
        Ok(())
    }

    // Returns the pending end line, if there is one, followed by the line of this rule.
    fn with_line(&self, attempt: u64, words: &[u8]) -> Result<Vec<u8>, AllocError>
        ensures { IfOk result (λ lines.
            lines.items ≡ nofaults_line self.now.ended ++ given_line attempt words.now) }
    {
        let alloc = *self.text.allocator();
        let mut lines = end_of(alloc, self.ended)?;
        if write!(lines, "at {attempt} ").is_err() {
            return Err(AllocError);
        }
        lines.extend_from_slice(words)?;
        lines.push(b'\n')?;
        Ok(lines)
    }

    /// Records that all rules end before the attempt with this number. Nothing changes if no lines are kept, or if all rules have
    /// ended already and none was given since then.
    pub fn end(&mut self, attempt: u64)
        ensures { self.new ≡ with_end attempt self.old }
    {
        if self.kept && self.ended.is_none() {
            self.ended = Some(attempt);
        }
    }

    /// Takes all lines out. Returns `AllocError` if an allocation fails; the lines are then still kept.
    pub fn take(&mut self) -> Result<Vec<u8>, AllocError>
        ensures taken { IfOk result (λ lines. lines.items ≡ text_of_lines self.old) }
        ensures after { OnOk result (self.new ≡ with_none_left self.old) }
        ensures stays { OnErr result (self.new ≡ self.old) }
    {
        let alloc = *self.text.allocator();
        let end = end_of(alloc, self.ended)?;
        self.text.extend_from_slice(&end)?;
        self.ended = None;
        Ok(mem::replace(&mut self.text, Vec::new(alloc)))
    }
}

// Returns the line for the end of all rules, or no bytes if they did not end.
fn end_of(alloc: Global, ended: Option<u64>) -> Result<Vec<u8>, AllocError>
    ensures { IfOk result (λ line. line.items ≡ nofaults_line ended) }
{
    match ended {
        Some(attempt) => end_before(alloc, attempt),
        None => Ok(Vec::new(alloc)),
    }
}

// Returns the line for the end of all rules before this attempt.
fn end_before(alloc: Global, attempt: u64) -> Result<Vec<u8>, AllocError>
    ensures { IfOk result (λ line. line.items ≡ nofaults_line (Some attempt)) }
{
    let mut line = Vec::new(alloc);
    match write!(line, "at {attempt} nofaults\n") {
        Ok(()) => Ok(line),
        Err(_) => Err(AllocError),
    }
}
