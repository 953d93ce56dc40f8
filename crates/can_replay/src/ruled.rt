ghost use Rattle.std.specs.Prelude.{◌≡◌, ◌++◌, codes, IfOk, OnOk, Some};
ghost use Rattle.can_replay.specs.EventsText.{asked_by, asked_of, rule_by, rule_in, rules_at_end, rules_at_start, rules_before, rules_by};
ghost use Rattle.can_replay.specs.Words.{numbered};

use crate::taken_rules::{put_first, put_until};
use can_event::{Attempt, Entry, Event, Reply};
use can_frame::Text;
use can_rules::RunFaults;
use std::alloc::AllocError;

/// A buffer for the part that names a rule: the word and a number.
type RuleText = Text<32>;

/// Writes the lines of the script's rules.
#[tactic(auto, unfolding(crate::specs::EventsText::rules_at_start))]
pub fn put_first_rules(out: &mut Vec<u8>, faults: &Option<RunFaults>) -> Result<(), AllocError>
    ensures { OnOk result (out.new.items ≡ out.old.items ++ rules_at_start faults.now) }
{
    match faults {
        Some(run) => put_first(out, run),
        None => Ok(()),
    }
}

/// Writes the lines for the rules that the bus accepts after all attempts, and for each removal of all rules.
#[tactic(auto, unfolding(crate::specs::EventsText::rules_at_end))]
pub fn put_last_rules(out: &mut Vec<u8>, faults: &mut Option<RunFaults>) -> Result<(), AllocError>
    ensures { OnOk result (out.new.items ≡ out.old.items ++ rules_at_end faults.old) }
{
    match faults {
        Some(run) => put_until(out, run, u64::MAX),
        None => Ok(()),
    }
}

/// Writes the lines of rules that come before the line of an entry. Returns the number of the rule that gave the attempt its
/// verdict, or `None` if no rule did. The rules are queried only if the attempt tried a frame.
#[tactic(auto, unfolding(crate::specs::EventsText::rules_before, crate::specs::EventsText::rule_in, crate::specs::EventsText::asked_of))]
pub(crate) fn put_rules(
    out: &mut Vec<u8>,
    faults: &mut Option<RunFaults>,
    entry: &Entry,
) -> Result<Option<u64>, AllocError>
    ensures lines { OnOk result
        (out.new.items ≡ out.old.items ++ rules_before faults.old entry.now) }
    ensures rule { IfOk result (λ rule. rule ≡ rule_in faults.old entry.now) }
    ensures after { OnOk result (faults.new ≡ asked_of faults.old entry.now) }
{
    match faults {
        Some(run) => put_rules_of(out, run, entry),
        None => Ok(None),
    }
}

/// Does the same as `put_rules`, with these faults of the run.
fn put_rules_of(
    out: &mut Vec<u8>,
    run: &mut RunFaults,
    entry: &Entry,
) -> Result<Option<u64>, AllocError>
    ensures lines { OnOk result (out.new.items ≡ out.old.items ++
        rules_by run.old entry.now.event entry.now.reply) }
    ensures rule { IfOk result
        (λ rule. rule ≡ rule_by run.old entry.now.event entry.now.reply) }
    ensures after { OnOk result (run.new ≡ asked_by run.old entry.now.event entry.now.reply) }
{
    let Event::Attempt(_, verdict) = &entry.event else {
        return Ok(None);
    };
    let Reply::Attempted(Attempt::Tried(tried)) = &entry.reply else {
        return Ok(None);
    };
    let attempt = run.tried();
    put_until(out, run, attempt)?;
    Ok(run.rule_of(tried.winner, &tried.frame, *verdict))
}

/// Writes the part with the number of the rule. It writes nothing if there is no number.
#[tactic(auto, unfolding(crate::specs::Words::numbered, crate::specs::Words::parted))]
pub(crate) fn put_rule(out: &mut Vec<u8>, rule: Option<u64>) -> Result<(), AllocError>
    ensures { OnOk result (out.new.items ≡ out.old.items ++ numbered (codes "rule") rule) }
{
    let Some(number) = rule else {
        return Ok(());
    };
    let mut part: RuleText = Text::new();
    part.push_all(b"; rule ");
    part.push_count(number);
    out.extend_from_slice(part.as_bytes())
}
