ghost use Rattle.std.specs.Prelude.{◌≡◌, IfOk};
ghost use Rattle.std.specs.List.Sorted.{IsNonDecreasing};
ghost use Rattle.can_filter.specs.Gates.{IsGate, IsGateTo};
ghost use Rattle.can_filter.specs.Lookups.{is_listed, is_marked, is_matched};
ghost use Rattle.can_filter.specs.Parts.{is_found_in};

use crate::filter::Filter;
use crate::gates::gate_of;
use crate::joining::some_match;
use crate::lookup::{EXTENDED, Parts, STANDARD, is_extended};
use std::alloc::{AllocError, Global};

/// A compiled list of filters, for frames that have to match at least one of them.
#[derive(Drop)]
pub struct Compiled {
    parts: Parts,
    // `gate` is a gate for all the filters. `masked_gate` is a gate for the filters in `parts.masked` only.
    gate: Filter,
    masked_gate: Filter,
    ghost in_order: { IsNonDecreasing parts.extended.items },
    ghost gated: { IsGateTo gate (is_found_in parts) },
    ghost masked_gated: { IsGate masked_gate parts.masked.items },
}

impl Compiled {
    ghost use Rattle.can_filter.specs.Compiled.{FindsMatchesOf, finds};

    /// Compiles these filters. For `n` filters the time grows as `n log n`.
    pub fn of(alloc: Global, filters: &[Filter]) -> Result<Compiled, AllocError>
        ensures { IfOk result (FindsMatchesOf filters.now) }
    {
        let mut parts = Parts::empty(alloc);
        for filter in filters {
            parts.add(*filter)?;
        }
        parts.extended.sort_unstable();
        let gate = gate_of(filters);
        let masked_gate = gate_of(&parts.masked);
        Ok(Compiled {
            parts,
            gate,
            masked_gate,
        })
    }

    /// Whether at least one filter matches the word. The cheapest tests come first. The time grows with the number of masked
    /// filters and with the logarithm of the number of listed identifiers. A word that differs in a bit that all filters compare
    /// with the same value is rejected at once.
    #[inline]
    pub fn finds(&self, word: u32) -> bool
        ensures { result ≡ finds self.now word }
    {
        self.gate.agrees(word) && self.is_somewhere(word)
    }

    fn is_somewhere(&self, word: u32) -> bool
        ensures { result ≡ finds self.now word }
    {
        self.is_masked(word)
            || self.is_marked(word)
            || self.is_listed(word)
            || self.is_inverted(word)
    }

    fn is_marked(&self, word: u32) -> bool
        ensures { result ≡ is_marked self.now.parts.standard word }
    {
        match self.parts.standard.get((word & STANDARD) as usize) {
            Some(mark) => *mark,
            None => false,
        }
    }

    fn is_listed(&self, word: u32) -> bool
        ensures { result ≡ is_listed self.now.parts.extended.items word }
    {
        is_extended(word) && self.finds_listed(word)
    }

    fn is_masked(&self, word: u32) -> bool
        ensures { result ≡ is_matched self.now.parts.masked.items word }
    {
        !self.parts.masked.is_empty()
            && self.masked_gate.agrees(word)
            && some_match(&self.parts.masked, word)
    }

    fn is_inverted(&self, word: u32) -> bool
        ensures { result ≡ is_matched self.now.parts.inverted.items word }
    {
        !self.parts.inverted.is_empty() && some_match(&self.parts.inverted, word)
    }

    #[inline(never)]
    fn finds_listed(&self, word: u32) -> bool
        ensures { result ≡ is_listed self.now.parts.extended.items word }
    {
        let id = word & EXTENDED;
        self.parts.extended.binary_search(&id).is_ok()
    }
}
