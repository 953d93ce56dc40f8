ghost use Rattle.std.specs.Prelude.{◌≡◌, ◌<◌, Some, None};
ghost use Rattle.std.specs.List.{list_all};
ghost use Rattle.can_frame.specs.Names.{names_in, is_name as is_name_of};
ghost use Rattle.can_fault.specs.Scripts.{word, after, number_spelling, set_spelling, kind_spelling, local_spelling, verdict_spelling, entry_spelling, line_spelling};

use crate::verdict::{GlobalKind, LocalKind, Verdict};
use can_frame::{IfaceSet, Names, is_name, read_decimal};

/// A fault in a single line of a script, or in a part of a line.
#[derive(Debug, Clone, Copy, PartialEq, Eq)]
pub enum LineFault {
    BadLine,
    UnknownInterface,
}

/// Reads a line of a script. Returns the number of an attempt and the verdict on it, or `None` for an empty line or a comment.
pub fn read_line(line: &str, names: &Names) -> Result<Option<(u64, Verdict)>, LineFault>
    ensures { result ≡ line_spelling names.now line.now }
{
    match line.as_bytes() {
        [] | [b'#', ..] => Ok(None),
        _ => read_entry(line, names),
    }
}

#[tactic(auto, unfolding(crate::specs::Scripts::entry_spelling))]
fn read_entry(line: &str, names: &Names) -> Result<Option<(u64, Verdict)>, LineFault>
    ensures { result ≡ entry_spelling names.now line.now }
{
    let (number, verdict) = cut(line);
    let number = read_number(number).ok_or(LineFault::BadLine)?;
    let verdict = read_verdict(verdict, names)?;
    Ok(Some((number, verdict)))
}

/// Reads a verdict, for a bus with these names.
#[tactic(auto, unfolding(crate::specs::Scripts::verdict_spelling))]
pub fn read_verdict(text: &str, names: &Names) -> Result<Verdict, LineFault>
    ensures { result ≡ verdict_spelling names.now text.now }
{
    let (first, rest) = cut(text);
    if text == "good" {
        Ok(Verdict::Good)
    } else if text == "lastbit" {
        Ok(Verdict::LastBit)
    } else if text == "global bit" {
        Ok(Verdict::Global(GlobalKind::Bit))
    } else if text == "global form" {
        Ok(Verdict::Global(GlobalKind::Form))
    } else if first == "local" {
        read_local(rest, names)
    } else {
        Err(LineFault::BadLine)
    }
}

// Reads the part of a verdict after `local`.
#[tactic(auto, unfolding(crate::specs::Scripts::local_spelling))]
fn read_local(text: &str, names: &Names) -> Result<Verdict, LineFault>
    ensures { result ≡ local_spelling names.now text.now }
{
    let (kind, list) = cut(text);
    let kind = read_kind(kind).ok_or(LineFault::BadLine)?;
    let set = read_set(list, names)?;
    Ok(Verdict::Local(set, kind))
}

fn read_kind(word: &str) -> Option<LocalKind>
    ensures { result ≡ kind_spelling word.now }
{
    if word == "stuff" {
        Some(LocalKind::Stuff)
    } else if word == "crc" {
        Some(LocalKind::Crc)
    } else if word == "form" {
        Some(LocalKind::Form)
    } else {
        None
    }
}

/// Reads a set of interfaces from a list of names that are joined by commas.
pub fn read_set(list: &str, names: &Names) -> Result<IfaceSet, LineFault>
    ensures { result ≡ set_spelling names.now list.now }
{
    if !are_good(list) {
        return Err(LineFault::BadLine);
    }
    let mut set = IfaceSet::empty();
    for name in list.split(',') {
        let Some(iface) = names.find(name) else {
            return Err(LineFault::UnknownInterface);
        };
        set = set.with(iface);
    }
    Ok(set)
}

// Whether the pieces between the commas are valid interface names.
fn are_good(list: &str) -> bool
    ensures { result ≡ list_all is_name_of (names_in list.now) }
{
    list.split(',').all(|name| is_name(name))
}

// Reads a number of 1 to 8 decimal digits.
fn read_number(text: &str) -> Option<u64>
    ensures { result ≡ number_spelling text.now }
{
    read_decimal(text.as_bytes(), 8)
}

/// Splits a text at its first space and returns the text before and after the space. If there is no space, returns the whole text
/// and an empty text.
pub fn cut(text: &str) -> (&str, &str)
    ensures word { result.0.now ≡ word text.now }
    ensures after { result.1.now ≡ after text.now }
{
    text.split_once(' ').unwrap_or((text, ""))
}
