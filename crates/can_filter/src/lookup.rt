ghost use Rattle.std.specs.Prelude.{◌≡◌, ◌<◌, ◌||◌, ℕ, OnOk, false, length, All, IsTrue};
ghost use Rattle.can_filter.specs.Filters.{matches};
ghost use Rattle.can_filter.specs.Lookups.{IsLookedUpAs, is_extended};

use crate::filter::Filter;
use std::alloc::{AllocError, Global};

/// The mask of a filter that matches exactly one 11-bit data identifier, and neither remote frames nor 29-bit identifiers.
pub const STANDARD: u32 = 0xC000_07FF;

/// The mask of a filter that matches exactly one 29-bit data identifier.
pub const EXTENDED: u32 = 0xDFFF_FFFF;

/// The way in which a word is tested against a filter.
#[derive(Clone, Copy)]
pub enum Lookup {
    /// The word has to be this 11-bit data identifier.
    Standard(u32),
    /// The word has to be this 29-bit data identifier.
    Extended(u32),
    /// The word has to be equal to the filter's identifier in the masked bits.
    Masked,
    /// The word has to differ from the filter's identifier in the masked bits.
    Inverted,
}

/// Returns the way in which a word is tested against this filter.
pub fn lookup_of(filter: Filter) -> Lookup
    ensures { IsLookedUpAs filter result }
{
    if filter.is_inverted() {
        return Lookup::Inverted;
    }
    let id = filter.id() & filter.mask();
    match filter.mask() {
        STANDARD if id < 0x800 => Lookup::Standard(id),
        EXTENDED if is_extended(id) => Lookup::Extended(id),
        _ => Lookup::Masked,
    }
}

/// Whether a word belongs to a data frame with a 29-bit identifier.
pub fn is_extended(word: u32) -> bool
    ensures { result ≡ is_extended word }
{
    word & 0xC000_0000 == 0x8000_0000
}

/// Filters, grouped by the way in which a word is tested against them.
#[derive(Drop)]
pub struct Parts {
    pub standard: [bool; 2048],
    pub extended: Vec<u32>,
    pub masked: Vec<Filter>,
    pub inverted: Vec<Filter>,
    ghost marks: { length standard ≡ 2048 },
    ghost tagged: { All (λ id. IsTrue (is_extended id)) extended.items },
}

impl Parts {
    ghost use Rattle.can_filter.specs.Parts.{is_found_in};

    pub fn empty(alloc: Global) -> Parts
        ensures { (word : ℕ) → is_found_in result word ≡ false }
    {
        Parts {
            standard: [false; 2048],
            extended: Vec::new(alloc),
            masked: Vec::new(alloc),
            inverted: Vec::new(alloc),
        }
    }

    /// Adds a filter to the group it belongs to.
    pub fn add(&mut self, filter: Filter) -> Result<(), AllocError>
        ensures { OnOk result ((word : ℕ) →
            is_found_in self.new word ≡ (is_found_in self.old word || matches filter word)) }
    {
        match lookup_of(filter) {
            Lookup::Standard(id) => self.standard[id as usize] = true,
            Lookup::Extended(id) => self.extended.push(id)?,
            Lookup::Masked => self.masked.push(filter)?,
            Lookup::Inverted => self.inverted.push(filter)?,
        }
        Ok(())
    }
}
