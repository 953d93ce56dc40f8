ghost use Rattle.std.specs.Prelude.{◌≡◌, ◌≤◌, ◌*◌, Ok, Err, length, take, IfErr};
ghost use Rattle.std.specs.Result.{result_map_both};
ghost use Rattle.can_proto.specs.Words.{words_of};
ghost use Rattle.can_proto.specs.Commands.{GivesBut, keeps_on_heap, filter_of, filters_of, set_of, IsFilterFault};

use crate::command::Command;
use crate::fault::ProtoFault;
use crate::words::{has_words, next_word};
use can_filter::filter_set::MAX_FILTERS;
use can_filter::{Filter, FilterSet};
use can_frame::{read_decimal, read_hexadecimal};
use std::alloc::Global;

/// Returns the filter that two words spell.
#[tactic(auto, unfolding(crate::specs::Commands::filter_of))]
fn read_filter(id_word: &[u8], mask_word: &[u8]) -> Result<Filter, ProtoFault>
    ensures value { result ≡ filter_of id_word.now mask_word.now }
    ensures fault { IfErr result IsFilterFault }
{
    let Some(id) = read_hexadecimal(id_word, 8) else {
        return Err(ProtoFault::BadNumber);
    };
    let Some(mask) = read_hexadecimal(mask_word, 8) else {
        return Err(ProtoFault::BadNumber);
    };
    match Filter::new(id, mask) {
        Ok(filter) => Ok(filter),
        Err(_) => Err(ProtoFault::InvalidFilter),
    }
}

/// Returns an array that begins with the filters that the words spell. Each filter has two words.
fn read_filters(rest: &[u8], count: usize) -> Result<[Filter; 512], ProtoFault>
    requires few { count ≤ 512 }
    requires words { length (words_of rest.now) ≡ count * 2 }
    ensures value { filters_of (words_of rest.now) ≡ result_map_both (take count) (λ e. e) result }
    ensures fault { IfErr result IsFilterFault }
{
    let Ok(open_filter) = Filter::new(0, 0) else {
        unreachable!()
    };
    let mut filters = [open_filter; MAX_FILTERS];
    let mut rest = rest;
    for i in 0..count {
        let Some((id_word, after)) = next_word(rest) else {
            unreachable!()
        };
        let Some((mask_word, after)) = next_word(after) else {
            unreachable!()
        };
        filters[i] = read_filter(id_word, mask_word)?;
        rest = after;
    }
    Ok(filters)
}

/// Reads the arguments of `filter N ID MASK ..`.
#[inline(never)]
#[tactic(auto, unfolding(crate::specs::Commands::set_of))]
pub fn read_set(alloc: Global, rest: &[u8]) -> Result<Command, ProtoFault>
    ensures { GivesBut keeps_on_heap result (set_of (words_of rest.now)) }
{
    let Some((count_word, rest)) = next_word(rest) else {
        return Err(ProtoFault::BadCount);
    };
    let Some(count) = read_decimal(count_word, 3) else {
        return Err(ProtoFault::BadNumber);
    };
    let count = count as usize;
    if count > MAX_FILTERS {
        return Err(ProtoFault::TooManyFilters);
    }
    if !has_words(rest, count * 2) {
        return Err(ProtoFault::BadCount);
    }
    let filters = read_filters(rest, count)?;
    match FilterSet::listed(alloc, &filters[..count]) {
        Ok(set) => Ok(Command::SetFilters(set)),
        Err(_) => Err(ProtoFault::NoMemory),
    }
}
