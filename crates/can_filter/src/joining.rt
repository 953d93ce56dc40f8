ghost use Rattle.std.specs.Prelude.{◌≡◌};
ghost use Rattle.std.specs.List.{list_any, list_all};
ghost use Rattle.can_filter.specs.Filters.{matches};

use crate::filter::Filter;

/// The number of filters that are compared before the result is tested. There is no branch within a block, so the compiler can
/// compare the filters of a block in parallel.
const BLOCK: usize = 8;

/// Whether at least one filter matches the word.
#[inline(never)]
pub fn some_match(filters: &[Filter], word: u32) -> bool
    ensures { result ≡ list_any (λ f. matches f word) filters.now }
{
    if filters.len() < BLOCK {
        return some_one_by_one(filters, word);
    }
    let mut rest = filters;
    while let Some((block, more)) = rest.split_first_chunk::<BLOCK>() {
        if some_of_block(block, word) {
            return true;
        }
        rest = more;
    }
    some_one_by_one(rest, word)
}

/// Whether every filter matches the word.
#[inline(never)]
pub fn all_match(filters: &[Filter], word: u32) -> bool
    ensures { result ≡ list_all (λ f. matches f word) filters.now }
{
    if filters.len() < BLOCK {
        return all_one_by_one(filters, word);
    }
    let mut rest = filters;
    while let Some((block, more)) = rest.split_first_chunk::<BLOCK>() {
        if !all_of_block(block, word) {
            return false;
        }
        rest = more;
    }
    all_one_by_one(rest, word)
}

/// Does the same as `some_match`, without a branch for each filter.
fn some_of_block(block: &[Filter], word: u32) -> bool
    ensures { result ≡ list_any (λ f. matches f word) block.now }
{
    let mut some = false;
    for filter in block {
        some |= filter.matches(word);
    }
    some
}

/// Does the same as `all_match`, without a branch for each filter.
fn all_of_block(block: &[Filter], word: u32) -> bool
    ensures { result ≡ list_all (λ f. matches f word) block.now }
{
    let mut all = true;
    for filter in block {
        all &= filter.matches(word);
    }
    all
}

/// Does the same as `some_match`, and stops at the first filter that matches.
fn some_one_by_one(filters: &[Filter], word: u32) -> bool
    ensures { result ≡ list_any (λ f. matches f word) filters.now }
{
    filters.iter().any(|filter| filter.matches(word))
}

/// Does the same as `all_match`, and stops at the first filter that does not match.
fn all_one_by_one(filters: &[Filter], word: u32) -> bool
    ensures { result ≡ list_all (λ f. matches f word) filters.now }
{
    filters.iter().all(|filter| filter.matches(word))
}
