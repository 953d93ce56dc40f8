ghost use Rattle.std.specs.Prelude.{◌≡◌, ◌/◌, ◌%◌};
ghost use Rattle.can_record.specs.Verdicts.{class_in, verdict_in, verdict_set};

use crate::verdicts::{class_in, class_number, verdict_in, verdict_number};
use can_attempt::Class;
use can_fault::Verdict;
use can_frame::IfaceSet;
use std::marker::Model;

/// The class of an attempt and its verdict in 8 bits. The interfaces that the verdict names are stored separately.
#[derive(Clone, Copy)]
pub struct AttemptEnd {
    bits: u8,
}

impl Model for AttemptEnd {
    ghost use Rattle.std.specs.Prelude.{ℕ};

    ghost Value = { ℕ };

    ghost view = { λ e. e.bits };

    ghost inverse = { λ n. record { bits = n } };
}

impl AttemptEnd {
    /// Returns the packed end of an attempt with this class and this verdict.
    #[inline(always)]
    pub(crate) fn new(class: Class, verdict: Verdict) -> AttemptEnd
        ensures class { class_in (result % 4) ≡ class }
        ensures verdict { verdict_in (result / 4) (verdict_set verdict) ≡ verdict }
    {
        AttemptEnd {
            bits: verdict_number(verdict) * 4 + class_number(class),
        }
    }

    /// The class.
    pub fn class(self) -> Class
        ensures { result ≡ class_in (self % 4) }
    {
        class_in(self.bits % 4)
    }

    /// Returns the verdict, given the interfaces that it names.
    pub fn verdict(self, named: IfaceSet) -> Verdict
        ensures { result ≡ verdict_in (self / 4) named }
    {
        verdict_in(self.bits / 4, named)
    }
}
