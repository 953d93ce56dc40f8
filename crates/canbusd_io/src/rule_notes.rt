//! Notes on an invalid fault rule, in a script or in an input line of the bench.
use crate::names::read_names;
use crate::notes::{WITH_CR, fixed_note};
use crate::shown::Shown;
use can_rules::{WrongWord, read_later, read_rule};
use canbusd_options::has_name;
use std::alloc::{AllocError, Global};

/// Returns a note that says why a rule was not accepted. The names of the bus are written as on the command line.
pub fn rule_note(alloc: Global, rule: &str, bus: &str) -> Result<String, AllocError> {
    if rule.ends_with('\r') {
        return fixed_note(alloc, WITH_CR);
    }
    let Ok(names) = read_names(alloc, bus) else {
        return Ok(String::new(alloc));
    };
    match read_rule(rule, &names) {
        Ok(_) => fixed_note(alloc, "a bus has at most 64 rules"),
        Err(WrongWord::UnknownInterface) => unknown_note(alloc, rule, bus),
        Err(which) => format!(in alloc; "  {which}\n"),
    }
}

/// Returns a note that says why a line that changes the rules during a run was not accepted.
pub(crate) fn later_note(alloc: Global, line: &str, bus: &str) -> Result<String, AllocError> {
    if line.ends_with('\r') {
        return fixed_note(alloc, WITH_CR);
    }
    let Ok(names) = read_names(alloc, bus) else {
        return Ok(String::new(alloc));
    };
    match read_later(line, &names) {
        Ok(_) => fixed_note(alloc, "the numbers after at do not decrease"),
        Err(WrongWord::UnknownInterface) => unknown_note(alloc, line, bus),
        Err(WrongWord::Attempt | WrongWord::Beginning) => fixed_note(
            alloc,
            "a line is at N RULE or at N nofaults, as at 17 next 3 from can0 global bit: N has 1 to 10 digits, and one space follows it",
        ),
        Err(which) => format!(in alloc; "  {which}\n"),
    }
}

// Returns a note on the first name in a rule that the bus does not have. It checks the senders first and then the interfaces that
// see the fault.
fn unknown_note(alloc: Global, rule: &str, bus: &str) -> Result<String, AllocError> {
    let senders = match rule.split_once(" from ") {
        Some((_, rest)) => rest.split(' ').next().unwrap_or(""),
        None => "",
    };
    if senders
        .split(',')
        .any(|name| !name.is_empty() && !has_name(bus, name))
    {
        return unknown_name_note(alloc, senders, bus);
    }
    unknown_name_note(alloc, rule.rsplit(' ').next().unwrap_or(""), bus)
}

/// Returns a note on the first name in a list that the bus does not have.
pub(crate) fn unknown_name_note(
    alloc: Global,
    list: &str,
    bus: &str,
) -> Result<String, AllocError> {
    match list.split(',').find(|name| !has_name(bus, name)) {
        Some(name) => {
            let name = Shown::cut(name.as_bytes());
            format!(in alloc; "  {name} is none of {bus}\n")
        }
        None => Ok(String::new(alloc)),
    }
}
