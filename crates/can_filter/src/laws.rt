ghost use Rattle.std.specs.Prelude.{◌≡◌, ◌≢◌, ◌<◌, ◌%◌, ◌^◌, ◌↔◌, ℕ, Bool, true, false, not, List, [], All, Any, Contains, IsTrue, bit_and};
ghost use Rattle.can_filter.specs.Filters.{CanFilter, inverse_of, matches, passes, everything};
ghost use Rattle.can_filter.specs.Passing.{shares_class};

/// Each word is matched by exactly one of a filter and its inverse.
pub fn a_filter_and_its_inverse_part_all_words()
    ensures { (f : CanFilter) (received : ℕ) → bit_and f.mask (2 ^ 29) ≡ 0 →
        matches (inverse_of f) received ≡ not (matches f received) }
{}

/// Without the join option a frame passes exactly if at least one filter matches its word.
pub fn some_filter_has_to_match()
    ensures { (filters : List CanFilter) (received : ℕ) →
        IsTrue (passes filters false received) ↔ Any (λ f. IsTrue (matches f received)) filters }
{}

/// With the join option a frame passes exactly if there is at least one filter and every filter matches its word.
pub fn joined_filters_all_have_to_match()
    ensures { (filters : List CanFilter) (received : ℕ) →
        IsTrue (passes filters true received)
        ↔ ((filters ≢ []) × All (λ f. IsTrue (matches f received)) filters) }
{}

/// Repeating a filter or changing the order of the filters makes no difference.
pub fn repeated_filters_change_nothing()
    ensures { (one other : List CanFilter) → All (Contains other) one → All (Contains one) other →
        (join : Bool) (received : ℕ) → passes one join received ≡ passes other join received }
{}

/// If one filter has an empty mask and is not inverted, every word passes without the join option, whatever the other filters are.
pub fn one_open_filter_passes_every_word()
    ensures { (filters : List CanFilter) (received : ℕ) → Contains filters everything →
        IsTrue (passes filters false received) }
{}

/// Bits 29 to 31 of an error mask are ignored, because error classes only use the bits below 29.
pub fn an_error_mask_counts_below_bit_29()
    ensures { (class mask : ℕ) → class < 2 ^ 29 →
        shares_class class mask ≡ shares_class class (mask % 2 ^ 29) }
{}
