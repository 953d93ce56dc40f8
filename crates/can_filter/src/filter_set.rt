ghost use Rattle.std.specs.Prelude.{◌≡◌, ◌<◌, ◌≤◌, ◌↔◌, [], length, IfOk};
ghost use Rattle.can_filter.specs.Filters.{receives_all, passes};

use crate::compiled::Compiled;
use crate::filter::Filter;
use crate::joining::{all_match, some_match};
use std::alloc::{AllocError, Global};
use std::fmt;
use std::marker::Model;
use thiserror::Error;

/// The maximum number of filters of a socket (CAN_RAW_FILTER_MAX of linux/can.h).
pub const MAX_FILTERS: usize = 512;

/// The reason why a set of filters could not be created.
#[derive(Debug, Clone, Copy, PartialEq, Eq, Error)]
pub enum FilterError {
    /// There are more than 512 filters.
    #[error("too many filters")]
    TooManyFilters,
    /// There is not enough memory.
    #[error("no memory")]
    NoMemory,
}

/// The filters of a socket, at most 512, in the order given. They take 8 bytes a filter. A set that is tested often can also hold
/// the filters in compiled form.
#[derive(Drop)]
pub struct FilterSet {
    filters: Vec<Filter>,
    compiled: Option<Box<Compiled>>,
    // Whether this is known to be the set of the one filter that receives everything.
    is_open: bool,
}

impl Model for FilterSet {
    ghost use Rattle.std.specs.Prelude.{List};
    ghost use Rattle.can_filter.specs.Filters.{CanFilter};
    ghost use Rattle.can_filter.specs.Compiled.{IsFilterSet};

    ghost Value = { List CanFilter };

    ghost view = { λ s. s.filters.items };

    ghost invariant = { IsFilterSet };
}

impl fmt::Debug for FilterSet {
    fn fmt<W: fmt::Write>(&self, f: &mut fmt::Formatter<W>) -> fmt::Result {
        f.debug_tuple("FilterSet").field(&self.filters()).finish()
    }
}

// Two sets are equal if they have the same filters in the same order.
impl PartialEq for FilterSet {
    ghost use Rattle.std.proofs.Common.{rules};
    ghost use Rattle.std.specs.Cmp.Rules.{comparing};
    ghost use Rattle.std.specs.Ordering.{on, eq_of_both};
    ghost use Rattle.std.specs.Cmp.Lexicographic.{pointwise};
    ghost use Rattle.std.specs.Prelude.{◌==◌};

    ghost eq = { pointwise (eq_of_both (on (λ f. f.id) ◌==◌) (on (λ f. f.mask) ◌==◌)) };

    ghost laws = { Prim.search (comparing, rules) };

    fn eq(&self, other: &FilterSet) -> bool {
        self.filters() == other.filters()
    }
}

impl Eq for FilterSet {
    ghost use Rattle.std.proofs.Common.{rules};
    ghost use Rattle.std.specs.Cmp.Rules.{comparing};

    ghost laws = { Prim.search (comparing, rules) };
}

impl FilterSet {
    /// Returns the filters of a newly opened socket: one filter that receives everything.
    pub fn all(alloc: Global) -> Result<FilterSet, AllocError>
        ensures { IfOk result (λ set. set ≡ receives_all) }
    {
        let mut set = FilterSet::list(alloc, &[Filter::everything()])?;
        set.is_open = true;
        Ok(set)
    }

    /// Returns a set without filters, which no data frame passes. It allocates nothing.
    pub fn none(alloc: Global) -> FilterSet
        ensures { result ≡ [] }
    {
        FilterSet {
            filters: Vec::new(alloc),
            compiled: None,
            is_open: false,
        }
    }

    /// Creates a set of at most 512 filters and compiles it, so that `passes` is fast. It takes about 2,200 bytes and at most 16
    /// bytes a filter. `NoMemory` is only returned if an allocation failed. For `n` filters the time grows as `n log n`.
    pub fn from_slice(alloc: Global, filters: &[Filter]) -> Result<FilterSet, FilterError>
        ensures ok { IfOk result (λ set. set ≡ filters.now) }
        ensures too_many { (result ≡ Err FilterError.TooManyFilters) ↔ (512 < length filters.now) }
    {
        let set = FilterSet::listed(alloc, filters)?;
        set.compiled(alloc).map_err(|_| FilterError::NoMemory)
    }

    /// Creates a set of at most 512 filters without compiling it. It takes 8 bytes a filter, which suits sets that are only stored.
    pub fn listed(alloc: Global, filters: &[Filter]) -> Result<FilterSet, FilterError>
        ensures ok { IfOk result (λ set. set ≡ filters.now) }
        ensures too_many { (result ≡ Err FilterError.TooManyFilters) ↔ (512 < length filters.now) }
    {
        if filters.len() > MAX_FILTERS {
            return Err(FilterError::TooManyFilters);
        }
        FilterSet::list(alloc, filters).map_err(|_| FilterError::NoMemory)
    }

    /// The filters, at most 512.
    pub fn filters(&self) -> &[Filter]
        ensures filters { result.now ≡ self.now }
        ensures at_most { length result.now ≤ 512 }
    {
        &self.filters
    }

    /// Returns a copy of the set that is not compiled.
    pub fn try_copy(&self, alloc: Global) -> Result<FilterSet, AllocError>
        ensures { IfOk result (λ set. set ≡ self.now) }
    {
        FilterSet::list(alloc, &self.filters)
    }

    /// Returns a copy of the set that is compiled as by `from_slice`.
    pub fn try_compile(&self, alloc: Global) -> Result<FilterSet, AllocError>
        ensures { IfOk result (λ set. set ≡ self.now) }
    {
        self.try_copy(alloc)?.compiled(alloc)
    }

    /// Whether a data frame with this identifier word passes the filters. If `join` is true, every filter has to match, otherwise
    /// at least one. The time grows with the number of filters. In a compiled set without `join`, all the filters that match a
    /// single data identifier are tested with one look-up. For the set that receives everything, no filter is tested.
    #[inline]
    pub fn passes(&self, word: u32, join: bool) -> bool
        ensures { result ≡ passes self.now join word }
    {
        if self.is_open {
            return true;
        }
        if join {
            return !self.filters.is_empty() && all_match(&self.filters, word);
        }
        match &self.compiled {
            Some(compiled) => compiled.finds(word),
            None => some_match(&self.filters, word),
        }
    }

    fn list(alloc: Global, filters: &[Filter]) -> Result<FilterSet, AllocError>
        requires { length filters.now ≤ 512 }
        ensures { IfOk result (λ set. set ≡ filters.now) }
    {
        Ok(FilterSet {
            filters: Vec::from_slice(alloc, filters)?,
            compiled: None,
            is_open: false,
        })
    }

    // Compiles the filters of the set.
    fn compiled(mut self, alloc: Global) -> Result<FilterSet, AllocError>
        ensures { IfOk result (λ set. set ≡ self) }
    {
        let compiled = Compiled::of(alloc, &self.filters)?;
        self.compiled = Some(Box::new(alloc, compiled)?);
        Ok(self)
    }
}
