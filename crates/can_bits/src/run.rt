ghost use Rattle.std.specs.Prelude.{◌≡◌, ◌≤◌, ◌↔◌, IsTrue};
ghost use Rattle.can_bits.specs.inner.Sending.{added, flushed, nothing_sent, stuff_bit};

use crate::bit::{Bit, Field};
use std::marker::Model;

/// The number of equal bits after which a stuff bit follows.
const LONGEST: u8 = 5;

/// The run of equal bits at the end of the bits sent so far: the field and the value of the last bit, and the length of the run.
#[derive(Debug, Clone, Copy)]
pub(crate) struct Run {
    field: Field,
    is_recessive: bool,
    count: u8,
}

impl Model for Run {
    ghost use Rattle.std.specs.Prelude.{◌≤◌};
    ghost use Rattle.can_bits.specs.inner.Sending.{Last};

    ghost Value = { Last };

    ghost view = { λ r. record {
      field = r.field;
      is_recessive = r.is_recessive;
      count = r.count;
    } };

    ghost invariant = { λ r. r.count ≤ 5 };

    ghost inverse = { λ v. record {
      field = v.field;
      is_recessive = v.is_recessive;
      count = v.count;
    } };
}

impl Run {
    /// Returns the empty run, before the first bit.
    pub fn new() -> Run
        ensures { result ≡ nothing_sent }
    {
        Run {
            field: Field::StartOfFrame,
            is_recessive: false,
            count: 0,
        }
    }

    /// Returns true if a stuff bit is due.
    pub fn is_full(self) -> bool
        ensures full { IsTrue result ↔ (self.count ≡ 5) }
        ensures within { self.count ≤ 5 }
    {
        self.count == LONGEST
    }

    /// Returns the value of the last bit.
    pub fn is_recessive(self) -> bool
        ensures { result ≡ self.is_recessive }
    {
        self.is_recessive
    }

    /// Returns the stuff bit that follows this run. It has the field of the last bit.
    pub fn stuff_bit(self, is_fast: bool) -> Bit
        ensures { result ≡ stuff_bit is_fast self.field self.is_recessive }
    {
        stuff_bit(self.field, self.is_recessive, is_fast)
    }

    /// Returns the run after the stuff bit if one is due, or the unchanged run if none is due.
    pub fn flushed(self) -> Run
        ensures last { result ≡ flushed self }
        ensures short { result.count ≤ 4 }
    {
        if !self.is_full() {
            return self;
        }
        Run {
            field: self.field,
            is_recessive: !self.is_recessive,
            count: 1,
        }
    }

    /// Returns the run after one more bit.
    pub fn then(self, bit: Bit) -> Run
        requires { self.count ≤ 4 }
        ensures { result ≡ added bit self }
    {
        let count = if bit.is_recessive == self.is_recessive {
            self.count + 1
        } else {
            1
        };
        Run {
            field: bit.field,
            is_recessive: bit.is_recessive,
            count,
        }
    }
}

/// Returns a stuff bit in this field, with the opposite value of the bit before it.
pub(crate) fn stuff_bit(field: Field, last: bool, is_fast: bool) -> Bit
    ensures { result ≡ stuff_bit is_fast field last }
{
    Bit {
        field,
        is_recessive: !last,
        is_stuff: true,
        is_fast,
    }
}
