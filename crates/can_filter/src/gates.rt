ghost use Rattle.can_filter.specs.Gates.{IsGate};

use crate::filter::Filter;

/// Returns a gate for these filters: a filter that compares only the bits that all of them compare with the same value. If a word
/// does not agree with the gate, no filter matches it, so the filters need not be tested.
pub fn gate_of(filters: &[Filter]) -> Filter
    ensures { IsGate result filters.now }
{
    let mut gate = match filters.first() {
        Some(first) => *first,
        None => Filter::everything(),
    };
    for filter in filters {
        gate = gate.widened(*filter);
    }
    gate
}
