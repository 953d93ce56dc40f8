ghost use Rattle.std.specs.Prelude.{◌≡◌, ◌<◌};
ghost use Rattle.can_record.specs.Verdicts.{class_number, class_in, verdict_number, verdict_set, verdict_in};

use can_attempt::Class;
use can_fault::{GlobalKind, LocalKind, Verdict};
use can_frame::IfaceSet;

/// Returns the number that stands for a class.
#[inline(always)]
pub fn class_number(class: Class) -> u8
    ensures number { result ≡ class_number class }
    ensures small { result < 4 }
    ensures back { class_in result ≡ class }
{
    match class {
        Class::Done => 0,
        Class::LastBit => 1,
        Class::Destroyed => 2,
        Class::NoAck => 3,
    }
}

/// Returns the class for a number.
pub fn class_in(number: u8) -> Class
    ensures { result ≡ class_in number }
{
    match number {
        0 => Class::Done,
        1 => Class::LastBit,
        2 => Class::Destroyed,
        _ => Class::NoAck,
    }
}

/// Returns the number that stands for a verdict.
#[inline(always)]
pub fn verdict_number(verdict: Verdict) -> u8
    ensures number { result ≡ verdict_number verdict }
    ensures small { result < 8 }
    ensures back { verdict_in result (verdict_set verdict) ≡ verdict }
{
    match verdict {
        Verdict::Good => 0,
        Verdict::Global(GlobalKind::Bit) => 1,
        Verdict::Global(GlobalKind::Form) => 2,
        Verdict::Local(_, LocalKind::Stuff) => 3,
        Verdict::Local(_, LocalKind::Crc) => 4,
        Verdict::Local(_, LocalKind::Form) => 5,
        Verdict::LastBit => 6,
    }
}

/// Returns the interfaces that a verdict names.
#[inline(always)]
pub fn verdict_set(verdict: Verdict) -> IfaceSet
    ensures { result ≡ verdict_set verdict }
{
    match verdict {
        Verdict::Local(set, _) => set,
        _ => IfaceSet::empty(),
    }
}

/// Returns the verdict for a number, naming these interfaces.
pub fn verdict_in(number: u8, set: IfaceSet) -> Verdict
    ensures { result ≡ verdict_in number set }
{
    match number {
        0 => Verdict::Good,
        1 => Verdict::Global(GlobalKind::Bit),
        2 => Verdict::Global(GlobalKind::Form),
        3 => Verdict::Local(set, LocalKind::Stuff),
        4 => Verdict::Local(set, LocalKind::Crc),
        5 => Verdict::Local(set, LocalKind::Form),
        _ => Verdict::LastBit,
    }
}
