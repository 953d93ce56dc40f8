//! Fault rules choose the verdicts of attempts by sender and identifier.
//!
//! The plan of a bus has script lines and rules. A rule gives a verdict to the next attempts, or to all attempts, and can be
//! limited to some senders or some identifiers. A bus asks its plan once for each attempt that tries a frame, and the plan counts
//! the verdicts of its rules. The text written for a rule is read back as the same rule.
#![tactic(auto)]

pub mod laws;
pub mod plan;
pub mod rule;
pub mod rule_lines;
pub mod rule_text;
mod rule_words;
mod rules;
pub mod run_faults;

pub use plan::{Plan, PlanError, spelled_rule};
pub use rule::{Decision, Rule};
pub use rule_lines::RuleLines;
pub use rule_text::put_rule_words;
pub use rule_words::{WrongWord, begins_as_rule, read_rule};
pub use rules::{MAX_RULES, RuleRefusal};
pub use run_faults::{Change, Later, Made, RunFaults, begins_as_later, read_later};
