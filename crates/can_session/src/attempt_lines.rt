ghost use Rattle.std.specs.Prelude.{ℕ, ◌≡◌, ◌<◌, ◌≤◌, ◌++◌, OnOk, true, false, length, slice_get};
ghost use Rattle.can_frame.specs.Sets.{is_in};
ghost use Rattle.can_session.specs.AttemptLines.{set_text, name_text, run_text, whose_text, ending_text, restarted_text, when_text, after_text, end_text};
ghost use Rattle.can_session.specs.AttemptLines.{bench_attempt_line, idle_line, tried_line};

use crate::attempt_faults::put_decision;
use crate::numbers::put_number;
use can_bus::{Attempt, Refusal, Tried};
use can_frame::{Iface, IfaceSet, Moment, Names, Text};
use can_rules::Decision;
use std::alloc::AllocError;

/// Appends the line of an attempt. The line includes the moment of the attempt, its fault and the rule that caused the fault, if
/// these are given.
pub fn put_attempt(
    said: &mut Vec<u8>,
    names: &Names,
    when: Option<Moment>,
    decision: Option<Decision>,
    outcome: &Result<Attempt, Refusal>,
) -> Result<(), AllocError>
    ensures { OnOk result (said.new.items ≡ said.old.items
        ++ bench_attempt_line names.now when decision outcome.now) }
{
    match outcome {
        Ok(Attempt::Tried(tried)) => put_tried(said, names, when, decision, tried),
        Ok(Attempt::Idle { restarted }) => put_idle(said, names, when, *restarted),
        Err(_) => said.extend_from_slice(b"record full\n"),
    }
}

fn put_tried(
    said: &mut Vec<u8>,
    names: &Names,
    when: Option<Moment>,
    decision: Option<Decision>,
    tried: &Tried,
) -> Result<(), AllocError>
    ensures { OnOk result (said.new.items ≡ said.old.items
        ++ tried_line names.now when decision tried.now) }
{
    put_whose(said, names, tried)?;
    put_ending(said, names, tried)?;
    put_end(said, names, when, decision, tried.restarted)
}

fn put_idle(
    said: &mut Vec<u8>,
    names: &Names,
    when: Option<Moment>,
    restarted: IfaceSet,
) -> Result<(), AllocError>
    ensures { OnOk result (said.new.items ≡ said.old.items ++ idle_line names.now when restarted) }
{
    said.extend_from_slice(b"idle")?;
    put_end(said, names, when, None, restarted)
}

fn put_end(
    said: &mut Vec<u8>,
    names: &Names,
    when: Option<Moment>,
    decision: Option<Decision>,
    restarted: IfaceSet,
) -> Result<(), AllocError>
    ensures { OnOk result (said.new.items ≡ said.old.items
        ++ end_text names.now when decision restarted) }
{
    put_after(said, names, when, restarted)?;
    put_decision(said, names, decision)?;
    said.extend_from_slice(b"\n")
}

// Appends the names of the restarted interfaces, and the moment of the attempt.
fn put_after(
    said: &mut Vec<u8>,
    names: &Names,
    when: Option<Moment>,
    restarted: IfaceSet,
) -> Result<(), AllocError>
    ensures { OnOk result (said.new.items ≡ said.old.items ++ after_text names.now when restarted) }
{
    put_restarted(said, names, restarted)?;
    put_when(said, when)
}

// Appends the moment of an attempt, if it is given.
fn put_when(said: &mut Vec<u8>, when: Option<Moment>) -> Result<(), AllocError>
    ensures { OnOk result (said.new.items ≡ said.old.items ++ when_text when) }
{
    let Some(moment) = when else {
        return Ok(());
    };
    said.extend_from_slice(b" at ")?;
    let mut digits: Text<17> = Text::new();
    digits.push_moment(moment);
    said.extend_from_slice(digits.as_bytes())
}

fn put_whose(said: &mut Vec<u8>, names: &Names, tried: &Tried) -> Result<(), AllocError>
    ensures { OnOk result (said.new.items ≡ said.old.items ++ whose_text names.now tried.now) }
{
    said.extend_from_slice(b"tried ")?;
    put_name(said, names, tried.winner)?;
    said.extend_from_slice(b" ")?;
    put_number(said, tried.number)
}

fn put_ending(said: &mut Vec<u8>, names: &Names, tried: &Tried) -> Result<(), AllocError>
    ensures { OnOk result (said.new.items ≡ said.old.items ++ ending_text names.now tried.now) }
{
    said.extend_from_slice(b" ")?;
    said.extend_from_slice(tried.class.word())?;
    said.extend_from_slice(b" ")?;
    put_set(said, names, tried.accepted)?;
    said.extend_from_slice(b" ")?;
    put_set(said, names, tried.off)
}

// Appends the names of the interfaces that were restarted, if there are any.
fn put_restarted(said: &mut Vec<u8>, names: &Names, restarted: IfaceSet) -> Result<(), AllocError>
    ensures { OnOk result (said.new.items ≡ said.old.items ++ restarted_text names.now restarted) }
{
    if restarted.is_empty() {
        return Ok(());
    }
    said.extend_from_slice(b" restarted ")?;
    put_set(said, names, restarted)
}

fn put_name(said: &mut Vec<u8>, names: &Names, iface: Iface) -> Result<(), AllocError>
    ensures { OnOk result (said.new.items ≡ said.old.items
        ++ name_text (slice_get names.now iface)) }
{
    match names.name(iface) {
        Some(name) => said.extend_from_slice(name.as_bytes()),
        None => said.extend_from_slice(b"?"),
    }
}

/// Appends the names of the interfaces in a set in ascending order of interface number, joined by commas. Appends a dash if the set
/// is empty.
pub fn put_set(said: &mut Vec<u8>, names: &Names, set: IfaceSet) -> Result<(), AllocError>
    ensures { OnOk result (said.new.items ≡ said.old.items ++ set_text names.now set) }
{
    if set.is_empty() {
        return said.extend_from_slice(b"-");
    }
    let count = names.count();
    let mut is_first = true;
    let mut number = 0;
    while number < count {
        let end = run_end(set, number, count);
        if number < end {
            put_run(said, names, number, end, is_first)?;
            is_first = false;
        }
        number = end + 1;
    }
    if is_first {
        said.extend_from_slice(b"-")?;
    }
    Ok(())
}

// Returns the first number, starting at `from`, that is not in the set, or `count` if the set contains all numbers from `from` to
// below `count`.
fn run_end(set: IfaceSet, from: u8, count: u8) -> u8
    requires from { from < count }
    requires few { count ≤ 16 }
    ensures after { from ≤ result }
    ensures within { result ≤ count }
    ensures members { (i : ℕ) → from ≤ i → i < result → is_in i set ≡ true }
    ensures next { result < count → is_in result set ≡ false }
{
    for number in from..count {
        let iface = Iface::new(number).unwrap();
        if !set.contains(iface) {
            return number;
        }
    }
    count
}

// Appends the names of consecutive interfaces, with a comma before them unless they are the first names.
fn put_run(
    said: &mut Vec<u8>,
    names: &Names,
    first: u8,
    end: u8,
    is_first: bool,
) -> Result<(), AllocError>
    requires some { first < end }
    requires within { end ≤ length names.now }
    ensures { OnOk result (said.new.items ≡ said.old.items
        ++ run_text is_first names.now first end) }
{
    if !is_first {
        said.extend_from_slice(b",")?;
    }
    said.extend_from_slice(names.run(first, end).as_bytes())
}
