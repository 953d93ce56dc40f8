//! Formats the fault of an attempt, and the rule that caused the fault, for the attempt's line.
ghost use Rattle.std.specs.Prelude.{◌≡◌, ◌++◌, OnOk};
ghost use Rattle.can_fault.specs.Grammar.{kind_word};
ghost use Rattle.can_session.specs.AttemptLines.{verdict_text, fault_text, rule_text, decision_text};

use crate::attempt_lines::put_set;
use crate::numbers::put_number;
use can_fault::{GlobalKind, LocalKind, Verdict};
use can_frame::{IfaceSet, Names};
use can_rules::Decision;
use std::alloc::AllocError;

/// Appends the fault of an attempt and the rule that caused the fault, if there is a decision to show.
#[inline(always)]
pub fn put_decision(
    said: &mut Vec<u8>,
    names: &Names,
    decision: Option<Decision>,
) -> Result<(), AllocError>
    ensures { OnOk result (said.new.items ≡ said.old.items
        ++ decision_text names.now decision) }
{
    match decision {
        Some(decision) => put_shown(said, names, decision),
        None => Ok(()),
    }
}

// This is a separate function because few runs show faults.
#[inline(never)]
fn put_shown(said: &mut Vec<u8>, names: &Names, decision: Decision) -> Result<(), AllocError>
    ensures { OnOk result (said.new.items ≡ said.old.items
        ++ fault_text names.now decision.verdict ++ rule_text decision.rule) }
{
    put_fault(said, names, decision.verdict)?;
    put_rule(said, decision.rule)
}

fn put_fault(said: &mut Vec<u8>, names: &Names, verdict: Verdict) -> Result<(), AllocError>
    ensures { OnOk result (said.new.items ≡ said.old.items ++ fault_text names.now verdict) }
{
    if verdict == Verdict::Good {
        return Ok(());
    }
    said.extend_from_slice(b"; fault ")?;
    put_verdict(said, names, verdict)
}

// Appends a verdict in the words that scripts use.
fn put_verdict(said: &mut Vec<u8>, names: &Names, verdict: Verdict) -> Result<(), AllocError>
    ensures { OnOk result (said.new.items ≡ said.old.items ++ verdict_text names.now verdict) }
{
    match verdict {
        Verdict::Good => said.extend_from_slice(b"good"),
        Verdict::Global(GlobalKind::Bit) => said.extend_from_slice(b"global bit"),
        Verdict::Global(GlobalKind::Form) => said.extend_from_slice(b"global form"),
        Verdict::Local(seen_by, kind) => put_local(said, names, seen_by, kind),
        Verdict::LastBit => said.extend_from_slice(b"lastbit"),
    }
}

fn put_local(
    said: &mut Vec<u8>,
    names: &Names,
    seen_by: IfaceSet,
    kind: LocalKind,
) -> Result<(), AllocError>
    ensures { OnOk result (said.new.items ≡ said.old.items
        ++ verdict_text names.now (Verdict.Local seen_by kind)) }
{
    said.extend_from_slice(b"local ")?;
    said.extend_from_slice(word_of(kind))?;
    said.extend_from_slice(b" ")?;
    put_set(said, names, seen_by)
}

fn word_of(kind: LocalKind) -> &'static [u8]
    ensures { result.now ≡ kind_word kind }
{
    match kind {
        LocalKind::Stuff => b"stuff",
        LocalKind::Crc => b"crc",
        LocalKind::Form => b"form",
    }
}

fn put_rule(said: &mut Vec<u8>, rule: Option<u64>) -> Result<(), AllocError>
    ensures { OnOk result (said.new.items ≡ said.old.items ++ rule_text rule) }
{
    let Some(number) = rule else {
        return Ok(());
    };
    said.extend_from_slice(b"; rule ")?;
    put_number(said, number)
}
