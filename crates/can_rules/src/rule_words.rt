ghost use Rattle.std.specs.Prelude.{◌≡◌, ◌<◌};
ghost use Rattle.can_rules.specs.RuleWords.{is_rule, rule_of, rule_spelling, with_senders, with_id, skipping, ended, count_spelling, id_spelling, plain_spelling, masked_spelling, small_spelling, of_standard, of_extended, before_colon, mask_in, wrong_word_of};

use crate::rule::Rule;
use can_fault::Verdict;
use can_fault::script_lines::{LineFault, cut, read_set, read_verdict};
use can_filter::Filter;
use can_frame::{Names, read_decimal, read_hexadecimal};
use thiserror::Error;

/// The first wrong word of a rule, or of the `at` line that contains it. Each error message gives the correct form of the word.
#[derive(Debug, Clone, Copy, PartialEq, Eq, Error)]
pub enum WrongWord {
    /// The text begins with neither `next` nor `always`.
    #[error("a rule begins with next N or always, as next 32 from can0 global bit")]
    Beginning,
    /// The word after `next` is not a number, or is 0.
    #[error("next N: N has 1 to 8 digits and is not 0")]
    Count,
    /// The word after `from` is not a list of names.
    #[error("from NAMES: names of 1 to 15 bytes are joined by commas, without spaces")]
    Senders,
    /// A name belongs to no interface of the bus.
    #[error("NAMES: each is an interface of the bus")]
    UnknownInterface,
    /// The word after `id` is not an identifier.
    #[error("id ID: 3 hexadecimal digits up to 7FF or 8 up to 1FFFFFFF; or ID:MASK, 1 to 8 digits each, without bit 29 in MASK")]
    Identifier,
    /// The word after `at` is not a number.
    #[error("at N: N has 1 to 10 digits")]
    Attempt,
    /// The word after `skip` is not a number.
    #[error("skip K: K has 1 to 8 digits")]
    Skip,
    /// The end of the rule is not a verdict.
    #[error("after next N or always come from NAMES, id ID and skip K, in this order, each or none, and then VERDICT, with one space between words: good, lastbit, global bit, global form, local stuff NAMES, local crc NAMES or local form NAMES")]
    Verdict,
}

/// Returns whether a line begins like a rule.
pub fn begins_as_rule(line: &str) -> bool
    ensures { result ≡ is_rule line.now }
{
    let (first, _) = cut(line);
    first == "next" || first == "always"
}

/// Reads a rule from a text, for a bus whose interfaces have these names.
///
/// A rule begins with `next N` or `always`. The parts `from NAMES`, `id ID` and `skip K` may follow in this order. The rule ends
/// with a verdict, written as in a script. Words are separated by one space. `ID` has 3 or 8 hexadecimal digits. If `ID` is
/// followed by a colon and a mask, each of the two has 1 to 8 digits, as in the words of `filter`.
#[tactic(auto, unfolding(crate::specs::RuleWords::rule_spelling))]
pub fn read_rule(text: &str, names: &Names) -> Result<Rule, WrongWord>
    ensures { result ≡ rule_spelling names.now text.now }
{
    let (first, rest) = cut(text);
    if first == "always" {
        read_senders(rule_of(None), rest, names)
    } else if first == "next" {
        let (count, rest) = cut(rest);
        let count = read_count(count).ok_or(WrongWord::Count)?;
        read_senders(rule_of(Some(count)), rest, names)
    } else {
        Err(WrongWord::Beginning)
    }
}

fn rule_of(left: Option<u32>) -> Rule
    ensures { result ≡ rule_of left }
{
    Rule {
        senders: None,
        filter: Filter::new(0, 0).unwrap(),
        skip: 0,
        left,
        verdict: Verdict::Good,
        number: 0,
    }
}

#[tactic(auto, unfolding(crate::specs::RuleWords::with_senders))]
fn read_senders(mut rule: Rule, text: &str, names: &Names) -> Result<Rule, WrongWord>
    ensures { result ≡ with_senders names.now rule text.now }
{
    let (first, rest) = cut(text);
    if first != "from" {
        return read_id(rule, text, names);
    }
    let (list, rest) = cut(rest);
    match read_set(list, names) {
        Ok(senders) => {
            rule.senders = Some(senders);
            read_id(rule, rest, names)
        }
        Err(fault) => Err(wrong_word(WrongWord::Senders, fault)),
    }
}

#[tactic(auto, unfolding(crate::specs::RuleWords::with_id))]
fn read_id(mut rule: Rule, text: &str, names: &Names) -> Result<Rule, WrongWord>
    ensures { result ≡ with_id names.now rule text.now }
{
    let (first, rest) = cut(text);
    if first != "id" {
        return read_skip(rule, text, names);
    }
    let (id, rest) = cut(rest);
    let filter = read_filter(id).ok_or(WrongWord::Identifier)?;
    rule.filter = filter;
    read_skip(rule, rest, names)
}

#[tactic(auto, unfolding(crate::specs::RuleWords::skipping))]
fn read_skip(mut rule: Rule, text: &str, names: &Names) -> Result<Rule, WrongWord>
    ensures { result ≡ skipping names.now rule text.now }
{
    let (first, rest) = cut(text);
    if first != "skip" {
        return read_end(rule, text, names);
    }
    let (number, rest) = cut(rest);
    let skip = read_small(number).ok_or(WrongWord::Skip)?;
    rule.skip = skip;
    read_end(rule, rest, names)
}

#[tactic(auto, unfolding(crate::specs::RuleWords::ended))]
fn read_end(mut rule: Rule, text: &str, names: &Names) -> Result<Rule, WrongWord>
    ensures { result ≡ ended names.now rule text.now }
{
    match read_verdict(text, names) {
        Ok(verdict) => {
            rule.verdict = verdict;
            Ok(rule)
        }
        Err(fault) => Err(wrong_word(WrongWord::Verdict, fault)),
    }
}

// Returns the wrong word that corresponds to a fault in this part of the line.
fn wrong_word(which: WrongWord, fault: LineFault) -> WrongWord
    ensures { result ≡ wrong_word_of which fault }
{
    match fault {
        LineFault::BadLine => which,
        LineFault::UnknownInterface => WrongWord::UnknownInterface,
    }
}

// Reads 1 to 8 decimal digits.
fn read_small(text: &str) -> Option<u32>
    ensures { result ≡ small_spelling text.now }
{
    match read_decimal(text.as_bytes(), 8) {
        Some(number) => Some(number as u32),
        None => None,
    }
}

// Reads 1 to 8 decimal digits, and refuses 0.
fn read_count(text: &str) -> Option<u32>
    ensures { result ≡ count_spelling text.now }
{
    match read_small(text) {
        Some(0) | None => None,
        Some(count) => Some(count),
    }
}

fn read_filter(text: &str) -> Option<Filter>
    ensures { result ≡ id_spelling text.now }
{
    let (id, mask) = cut_colon(text);
    if mask.len() == 0 {
        read_plain(text)
    } else {
        read_masked(id, mask)
    }
}

// Splits a text at the first colon. Without a colon, the second part is empty.
fn cut_colon(text: &str) -> (&str, &str)
    ensures id { result.0.now ≡ before_colon text.now }
    ensures mask { result.1.now ≡ mask_in text.now }
{
    text.split_once(':').unwrap_or((text, ""))
}

// Reads an identifier of 3 or 8 hexadecimal digits.
#[tactic(auto, unfolding(crate::specs::RuleWords::plain_spelling))]
fn read_plain(text: &str) -> Option<Filter>
    ensures { result ≡ plain_spelling text.now }
{
    if text.len() == 3 {
        match read_hexadecimal(text.as_bytes(), 3) {
            Some(number) => standard(number),
            None => None,
        }
    } else if text.len() == 8 {
        match read_hexadecimal(text.as_bytes(), 8) {
            Some(number) => extended(number),
            None => None,
        }
    } else {
        None
    }
}

// Returns the filter that passes only this 11-bit identifier.
fn standard(number: u32) -> Option<Filter>
    ensures { result ≡ of_standard number }
{
    if number < 0x800 {
        Filter::new(number, 0x8000_07ff).ok()
    } else {
        None
    }
}

// Returns the filter that passes only this 29-bit identifier.
fn extended(number: u32) -> Option<Filter>
    ensures { result ≡ of_extended number }
{
    if number < 0x2000_0000 {
        Filter::new(number + 0x8000_0000, 0x9fff_ffff).ok()
    } else {
        None
    }
}

#[tactic(auto, unfolding(crate::specs::RuleWords::masked_spelling))]
fn read_masked(id: &str, mask: &str) -> Option<Filter>
    ensures { result ≡ masked_spelling id.now mask.now }
{
    let id = read_hexadecimal(id.as_bytes(), 8)?;
    let mask = read_hexadecimal(mask.as_bytes(), 8)?;
    Filter::new(id, mask).ok()
}
