//! Writes rules as text that is read back as the same rule.
ghost use Rattle.std.specs.Prelude.{◌≡◌, ◌≤◌, ◌<◌, ◌++◌, ◌∷◌, [], decimal, length, slice_index_or, OnOk};
ghost use Rattle.can_frame.specs.FrameText.{digits};
ghost use Rattle.can_rules.specs.RuleText.{count_words, filter_words, id_words, is_one_extended_id, is_standard, local_words, rule_words, senders_words, set_words, skip_words, verdict_words};

use crate::rule::Rule;
use can_fault::{GlobalKind, LocalKind, Verdict};
use can_filter::Filter;
use can_frame::{Iface, IfaceSet, Names, Text};
use std::alloc::AllocError;

/// A buffer for a word of at most 12 bytes followed by a number.
type WordText = Text<32>;

/// The filter masks that select a single 11-bit identifier and a single 29-bit identifier.
const STANDARD_MASK: u32 = 0x8000_07ff;

const EXTENDED_MASK: u32 = 0x9fff_ffff;
/// The bit of an identifier word that marks a 29-bit identifier.
const EXTENDED: u32 = 0x8000_0000;

/// Writes the words of a rule, for a bus whose interfaces have these names.
#[tactic(auto, unfolding(crate::specs::RuleText::rule_words))]
pub fn put_rule_words(out: &mut Vec<u8>, rule: &Rule, names: &Names) -> Result<(), AllocError>
    ensures { OnOk result (out.new.items ≡ out.old.items ++ rule_words names.now rule.now) }
{
    put_count_words(out, rule.left)?;
    put_senders_words(out, rule.senders, names)?;
    put_id_words(out, rule.filter)?;
    put_skip_words(out, rule.skip)?;
    put_verdict_words(out, rule.verdict, names)
}

#[tactic(auto, unfolding(crate::specs::RuleText::count_words))]
fn put_count_words(out: &mut Vec<u8>, left: Option<u32>) -> Result<(), AllocError>
    ensures { OnOk result (out.new.items ≡ out.old.items ++ count_words left) }
{
    match left {
        Some(count) => put_counted(out, b"next ", count),
        None => out.extend_from_slice(b"always"),
    }
}

/// Writes a word followed by a number.
fn put_counted(out: &mut Vec<u8>, word: &[u8], count: u32) -> Result<(), AllocError>
    requires { length word.now ≤ 12 }
    ensures { OnOk result (out.new.items ≡ out.old.items ++ (word.now ++ decimal count)) }
{
    let mut text: WordText = Text::new();
    text.push_all(word);
    text.push_count(u64::from(count));
    out.extend_from_slice(text.as_bytes())
}

#[tactic(auto, unfolding(crate::specs::RuleText::senders_words))]
fn put_senders_words(
    out: &mut Vec<u8>,
    senders: Option<IfaceSet>,
    names: &Names,
) -> Result<(), AllocError>
    ensures { OnOk result (out.new.items ≡ out.old.items ++ senders_words names.now senders) }
{
    match senders {
        Some(set) => put_set_words(out, b" from", set, names),
        None => Ok(()),
    }
}

/// Writes words, a space, and the names of the interfaces in a set, separated by commas.
#[tactic(auto, unfolding(crate::specs::RuleText::set_words))]
fn put_set_words(
    out: &mut Vec<u8>,
    words: &[u8],
    set: IfaceSet,
    names: &Names,
) -> Result<(), AllocError>
    ensures { OnOk result
        (out.new.items ≡ out.old.items ++ (words.now ++ set_words names.now set)) }
{
    out.extend_from_slice(words)?;
    let mut mark = b' ';
    for number in 0..names.count() {
        let Some(iface) = Iface::new(number) else {
            unreachable!()
        };
        if set.contains(iface) {
            put_marked_name(out, mark, iface, names)?;
            mark = b',';
        }
    }
    Ok(())
}

/// Writes a byte followed by the name of this interface.
fn put_marked_name(
    out: &mut Vec<u8>,
    mark: u8,
    iface: Iface,
    names: &Names,
) -> Result<(), AllocError>
    requires { iface < length names.now }
    ensures { OnOk result
        (out.new.items ≡ out.old.items ++ mark ∷ slice_index_or names.now iface []) }
{
    let Some(name) = names.name(iface) else {
        unreachable!()
    };
    out.push(mark)?;
    out.extend_from_slice(name.as_bytes())
}

#[tactic(auto, unfolding(crate::specs::RuleText::id_words))]
fn put_id_words(out: &mut Vec<u8>, filter: Filter) -> Result<(), AllocError>
    ensures { OnOk result (out.new.items ≡ out.old.items ++ id_words filter) }
{
    if filter.id() == 0 && filter.mask() == 0 {
        return Ok(());
    }
    out.extend_from_slice(b" id ")?;
    put_identifiers(out, filter)
}

#[tactic(auto, unfolding(crate::specs::RuleText::filter_words))]
fn put_identifiers(out: &mut Vec<u8>, filter: Filter) -> Result<(), AllocError>
    ensures { OnOk result (out.new.items ≡ out.old.items ++ filter_words filter) }
{
    if is_standard(filter) {
        return put_digits(out, 3, filter.id());
    }
    if is_extended(filter) {
        return put_digits(out, 8, filter.id() - EXTENDED);
    }
    put_digits(out, 8, filter.id())?;
    out.push(b':')?;
    put_digits(out, 8, filter.mask())
}

/// Returns whether the filter passes exactly one 11-bit identifier.
fn is_standard(filter: Filter) -> bool
    ensures { result ≡ is_standard filter }
{
    filter.mask() == STANDARD_MASK && filter.id() < 0x800
}

/// Returns whether the filter passes exactly one 29-bit identifier.
fn is_extended(filter: Filter) -> bool
    ensures { result ≡ is_one_extended_id filter }
{
    filter.mask() == EXTENDED_MASK
        && filter.id() >= EXTENDED
        && filter.id() < EXTENDED + 0x2000_0000
}

/// Writes the last `count` hexadecimal digits of a number.
fn put_digits(out: &mut Vec<u8>, count: usize, number: u32) -> Result<(), AllocError>
    requires { count ≤ 8 }
    ensures { OnOk result (out.new.items ≡ out.old.items ++ digits 16 count number) }
{
    let mut text: WordText = Text::new();
    text.push_hex(count, u64::from(number));
    out.extend_from_slice(text.as_bytes())
}

#[tactic(auto, unfolding(crate::specs::RuleText::skip_words))]
fn put_skip_words(out: &mut Vec<u8>, skip: u32) -> Result<(), AllocError>
    ensures { OnOk result (out.new.items ≡ out.old.items ++ skip_words skip) }
{
    if skip == 0 {
        return Ok(());
    }
    put_counted(out, b" skip ", skip)
}

#[tactic(auto, unfolding(crate::specs::RuleText::verdict_words))]
fn put_verdict_words(out: &mut Vec<u8>, verdict: Verdict, names: &Names) -> Result<(), AllocError>
    ensures { OnOk result (out.new.items ≡ out.old.items ++ verdict_words names.now verdict) }
{
    match verdict {
        Verdict::Good => out.extend_from_slice(b" good"),
        Verdict::LastBit => out.extend_from_slice(b" lastbit"),
        Verdict::Global(GlobalKind::Bit) => out.extend_from_slice(b" global bit"),
        Verdict::Global(GlobalKind::Form) => out.extend_from_slice(b" global form"),
        Verdict::Local(set, kind) => put_set_words(out, local_words(kind), set, names),
    }
}

fn local_words(kind: LocalKind) -> &'static [u8]
    ensures { result.now ≡ local_words kind }
{
    match kind {
        LocalKind::Stuff => b" local stuff",
        LocalKind::Crc => b" local crc",
        LocalKind::Form => b" local form",
    }
}
