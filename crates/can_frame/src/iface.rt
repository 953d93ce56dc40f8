ghost use Rattle.std.specs.Prelude.{◌≡◌, ◌<◌, ℕ, SomeIff};

use std::marker::Model;

/// An interface of a bus, identified by its number from 0 to 15.
#[derive(Debug, Clone, Copy, PartialEq, Eq)]
pub struct Iface {
    number: u8,
}

impl Model for Iface {
    ghost use Rattle.std.specs.Prelude.{ℕ, ◌<◌};

    ghost Value = { ℕ };

    ghost view = { λ i. i.number };

    ghost invariant = { λ i. i.number < 16 };

    ghost inverse = { λ n. record { number = n } };
}

impl Iface {
    /// Returns the interface with this number, or `None` if the number is above 15.
    pub fn new(number: u8) -> Option<Iface>
        ensures { SomeIff result (number < 16) number }
    {
        if number < 16 {
            Some(Iface { number })
        } else {
            None
        }
    }

    /// The number of the interface, from 0 to 15.
    pub fn number(self) -> u8
        ensures number { result ≡ self }
        ensures below { result < 16 }
    {
        self.number
    }
}

/// A set of interfaces. Bit `i` is set if interface `i` is in the set.
#[derive(Debug, Clone, Copy, PartialEq, Eq)]
pub struct IfaceSet(pub u16);

impl IfaceSet {
    ghost use Rattle.std.specs.Prelude.{◌≡◌, ◌==◌, ◌^◌, bit_or};
    ghost use Rattle.can_frame.specs.Sets.{is_in, no_ifaces};

    /// Returns the empty set.
    pub fn empty() -> IfaceSet
        ensures { result ≡ no_ifaces }
    {
        IfaceSet(0)
    }

    /// Whether the set is empty.
    pub fn is_empty(self) -> bool
        ensures { result ≡ (self.0 == 0) }
    {
        self.0 == 0
    }

    /// Whether the interface is in the set.
    pub fn contains(self, iface: Iface) -> bool
        ensures { result ≡ is_in iface self }
    {
        (self.0 >> iface.number()) & 1 == 1
    }

    /// Returns the set with this interface added.
    pub fn with(self, iface: Iface) -> IfaceSet
        ensures { result.0 ≡ bit_or self.0 (2 ^ iface) }
    {
        IfaceSet(self.0 | (1 << iface.number()))
    }
}
