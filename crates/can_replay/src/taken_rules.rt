//! Writes the lines of the rules that a bus accepts. The lines show which rule each number stands for.
ghost use Rattle.std.specs.Prelude.{◌≡◌, ◌++◌, ◌∷◌, [], codes, decimal, OnOk};
ghost use Rattle.std.specs.List.{flat_map};
ghost use Rattle.can_rules.specs.RunFaults.{made_until};
ghost use Rattle.can_replay.specs.TakenRules.{first_rules, made_line, rule_line, rules_until};

use can_frame::{Names, Text};
use can_rules::{Made, Rule, RunFaults, put_rule_words};
use std::alloc::AllocError;

/// A buffer for the beginning of the line of a rule.
type FrontText = Text<32>;

/// Writes the lines of the script's rules, which the bus accepts at the start. No attempt and no change may come before this call.
pub(crate) fn put_first(out: &mut Vec<u8>, faults: &RunFaults) -> Result<(), AllocError>
    ensures { OnOk result (out.new.items ≡ out.old.items ++ first_rules faults.now) }
{
    put_rule_lines(out, faults.rules_left(), faults.names())
}

/// Makes the changes that come before the attempt with this number, and writes a line for each change.
pub(crate) fn put_until(
    out: &mut Vec<u8>,
    faults: &mut RunFaults,
    attempt: u64,
) -> Result<(), AllocError>
    ensures lines { OnOk result
        (out.new.items ≡ out.old.items ++ rules_until attempt faults.old) }
    ensures after { OnOk result (faults.new ≡ made_until attempt faults.old) }
{
    while let Some(made) = faults.make_next(attempt)? {
        put_made(out, &made, faults.names())?;
    }
    Ok(())
}

// Writes the line for the result of a change. A refused rule has no line.
fn put_made(out: &mut Vec<u8>, made: &Made, names: &Names) -> Result<(), AllocError>
    ensures { OnOk result (out.new.items ≡ out.old.items ++ made_line names.now made.now) }
{
    match made {
        Made::Taken(rule) => put_rule_line(out, rule, names),
        Made::Refused => Ok(()),
        Made::Ended => out.extend_from_slice(b"nofaults\n"),
    }
}

// Writes the lines of numbered rules.
fn put_rule_lines(out: &mut Vec<u8>, rules: &[Rule], names: &Names) -> Result<(), AllocError>
    ensures { OnOk result
        (out.new.items ≡ out.old.items ++ flat_map (rule_line names.now) rules.now) }
{
    for rule in rules {
        put_rule_line(out, rule, names)?;
    }
    Ok(())
}

// Writes the line of a rule.
#[tactic(auto, unfolding(crate::specs::TakenRules::rule_line))]
fn put_rule_line(out: &mut Vec<u8>, rule: &Rule, names: &Names) -> Result<(), AllocError>
    ensures { OnOk result (out.new.items ≡ out.old.items ++ rule_line names.now rule.now) }
{
    put_rule_front(out, rule.number)?;
    put_rule_words(out, rule, names)?;
    out.extend_from_slice(b"\n")
}

// Writes the beginning of a rule's line, up to the space after this number.
fn put_rule_front(out: &mut Vec<u8>, number: u64) -> Result<(), AllocError>
    ensures { OnOk result
        (out.new.items ≡ out.old.items ++ (codes "rule " ++ decimal number ++ 32 ∷ [])) }
{
    let mut front: FrontText = Text::new();
    front.push_all(b"rule ");
    front.push_count(number);
    front.push(b' ');
    out.extend_from_slice(front.as_bytes())
}
