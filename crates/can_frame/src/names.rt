ghost use Rattle.std.specs.Prelude.{ℕ, ◌≡◌, ◌≢◌, ◌↔◌, ◌<◌, ◌≤◌, length, Some, Err, IsTrue, IsNone, IfOk, IfSome, OnOk, slice_get, slice_index, slice_range};
ghost use Rattle.std.specs.List.{Contains, AllPairs, join_with_byte, list_all};
ghost use Rattle.std.specs.Option.{option_map};
ghost use Rattle.can_frame.specs.Names.{names_in, is_name_byte, is_name as is_name_of, AreNames, start_of, place_of};

use crate::iface::Iface;
use std::alloc::Global;
use std::marker::Model;
use thiserror::Error;

/// The reason why the names of a bus could not be read from a text.
#[derive(Debug, Clone, Copy, PartialEq, Eq, Error)]
pub enum NamesError {
    /// There is no name, there are more than 16, two are equal, or one is not a valid interface name.
    #[error("bad names")]
    BadNames,
    /// The names are valid, but there is not enough memory to store them.
    #[error("no memory")]
    NoMemory,
}

/// The names of a bus's interfaces: 1 to 16 names, all different. The first name belongs to interface 0. They are stored as they
/// were read, joined by commas, in at most 255 bytes. Finding a name scans these bytes; looking up the name of an interface takes
/// constant time.
#[derive(Debug, Drop)]
pub struct Names {
    text: String,
    count: u8,
    // Where each name begins in the text, and where another name after the last would begin.
    starts: [u16; 17],
}

impl Model for Names {
    ghost use Rattle.std.specs.Prelude.{ℕ, List, string_bytes};

    ghost Value = { List (List ℕ) };

    ghost use Rattle.can_frame.specs.Names.{names_in, AreKept};

    ghost view = { λ n. names_in (string_bytes n.text) };

    ghost invariant = { λ n. AreKept (names_in (string_bytes n.text)) n.count n.starts };
}

impl Names {
    /// Reads names that are joined by commas: 1 to 16 different names, each of 1 to 15 ASCII letters, digits, `_`, `-` and `.`.
    /// Memory is only allocated if the names are valid.
    pub fn read(alloc: Global, text: &str) -> Result<Names, NamesError>
        ensures names { IfOk result (λ names. names ≡ names_in text.now) }
        ensures good { OnOk result (AreNames (names_in text.now)) }
        ensures bad { (result ≡ Err NamesError.BadNames) ↔ (AreNames (names_in text.now) → ⊥) }
        ensures no_memory { result ≡ Err NamesError.NoMemory → AreNames (names_in text.now) }
    {
        if !are_names(text) {
            return Err(NamesError::BadNames);
        }
        let count = count_in(text) as u8;
        let starts = starts_in(text);
        let text = String::from_str(alloc, text).map_err(|_| NamesError::NoMemory)?;
        Ok(Names {
            text,
            count,
            starts,
        })
    }

    /// The number of names, 1 to 16.
    pub fn count(&self) -> u8
        ensures count { result ≡ length self.now }
        ensures some { 1 ≤ result }
        ensures few { result ≤ 16 }
        ensures good { AreNames self.now }
    {
        self.count
    }

    /// Returns the interface with this name, or `None` if no interface has it.
    pub fn find(&self, name: &str) -> Option<Iface>
        ensures place { result ≡ place_of self.now name.now }
        ensures found { IfSome result (λ iface. slice_get self.now iface ≡ Some name.now) }
        ensures missing { IsNone result ↔ (Contains self.now name.now → ⊥) }
    {
        self.find_bytes(name.as_bytes())
    }

    /// Returns the interface with this name, or `None` if no interface has it. Bytes that are not UTF-8 match no name.
    pub fn find_bytes(&self, name: &[u8]) -> Option<Iface>
        ensures place { result ≡ place_of self.now name.now }
        ensures found { IfSome result (λ iface. slice_get self.now iface ≡ Some name.now) }
        ensures missing { IsNone result ↔ (Contains self.now name.now → ⊥) }
    {
        let place = place_in(&self.text, name)?;
        Iface::new(place as u8)
    }

    /// Returns the name of the interface in constant time, or `None` if the bus has no such interface.
    pub fn name(&self, iface: Iface) -> Option<&str>
        ensures { option_map (λ name. name.now) result ≡ slice_get self.now iface }
    {
        if iface.number() >= self.count {
            return None;
        }
        let place = iface.number() as usize;
        let start = self.starts[place] as usize;
        let end = self.starts[place + 1] as usize - 1;
        Some(&self.text[start..end])
    }

    /// Returns the names from place `first` up to but not including `end`, joined by commas, in constant time.
    pub fn run(&self, first: u8, end: u8) -> &str
        requires some { first < end }
        requires within { end ≤ length self.now }
        ensures { result.now ≡ join_with_byte 44 (slice_range self.now first end) }
    {
        let start = self.starts[first as usize] as usize;
        let stop = self.starts[end as usize] as usize - 1;
        &self.text[start..stop]
    }
}

/// Whether the text is a valid interface name: 1 to 15 ASCII letters, digits, `_`, `-` and `.`.
pub fn is_name(text: &str) -> bool
    ensures { result ≡ is_name_of text.now }
{
    1 <= text.len() && text.len() <= 15 && text.bytes().all(|byte| is_name_byte(byte))
}

fn is_name_byte(byte: u8) -> bool
    ensures { result ≡ is_name_byte byte }
{
    byte.is_ascii_alphanumeric() || matches!(byte, b'_' | b'-' | b'.')
}

// Whether the pieces between the commas are valid names of a bus.
fn are_names(text: &str) -> bool
    ensures { IsTrue result ↔ AreNames (names_in text.now) }
{
    count_in(text) <= 16 && are_good(text) && are_distinct(text)
}

fn are_good(text: &str) -> bool
    ensures { result ≡ list_all is_name_of (names_in text.now) }
{
    text.split(',').all(|name| is_name(name))
}

// Whether all the pieces between the commas are different: each piece has its first occurrence at its own place.
fn are_distinct(text: &str) -> bool
    ensures { IsTrue result ↔ AllPairs ◌≢◌ (names_in text.now) }
{
    text.split(',').enumerate().all(|(place, name)| place_in(text, name.as_bytes()) == Some(place))
}

fn count_in(text: &str) -> usize
    ensures { result ≡ length (names_in text.now) }
{
    text.split(',').count()
}

// Returns where each piece begins in the text, and where another piece after the last would begin.
fn starts_in(text: &str) -> [u16; 17]
    requires { AreNames (names_in text.now) }
    ensures { (k : ℕ) →
        k ≤ length (names_in text.now) → slice_index result k ≡ start_of (names_in text.now) k }
{
    let mut starts = [0; 17];
    let mut place = 0;
    for name in text.split(',') {
        starts[place + 1] = starts[place] + name.len() as u16 + 1;
        place += 1;
    }
    starts
}

// Returns the first place of a name among the pieces between the commas.
fn place_in(text: &str, name: &[u8]) -> Option<usize>
    ensures { result ≡ place_of (names_in text.now) name.now }
{
    text.split(',').position(|piece| piece.as_bytes() == name)
}
