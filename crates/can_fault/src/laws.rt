ghost use Rattle.std.specs.Prelude.{◌≡◌, ◌↔◌, ◌<◌, ℕ, List, [], length, nat_eq, Ok, Err, Some, slice_get};
ghost use Rattle.std.specs.List.{list_any};
ghost use Rattle.std.specs.Option.{option_eq};
ghost use Rattle.can_frame.specs.Names.{place_of};
ghost use Rattle.can_frame.specs.Sets.{is_in};
ghost use Rattle.std.specs.FinMap.{get};
ghost use Rattle.can_fault.specs.Grammar.{SpellsEntry, LacksInterface};
ghost use Rattle.can_fault.specs.Sources.{VerdictMap, no_verdicts};
ghost use Rattle.can_fault.specs.Scripts.{set_named, line_spelling, sayings, script_spelling, Gives, IsFirstFault};
ghost use Rattle.can_fault.specs.declared.script.ScriptError.{ScriptError};
ghost use Rattle.can_fault.specs.declared.verdict.Verdict.{Verdict};

use crate::script_lines::LineFault;

/// A line gives a verdict on an attempt exactly if it consists of the attempt's number, a space, and one of the spellings of the
/// verdict.
pub fn a_line_is_read_as_it_is_spelled()
    ensures { (names : List (List ℕ)) (line : List ℕ) (attempt : ℕ) (verdict : Verdict) →
        (line_spelling names line ≡ Ok (Some (attempt, verdict)))
        ↔ SpellsEntry names line attempt verdict }
{}

/// A line has an unknown interface exactly if the rest of the line is valid: it has a number, a local fault, and well-formed names,
/// of which the bus lacks at least one.
pub fn an_unknown_interface_is_the_only_fault_of_its_line()
    ensures { (names : List (List ℕ)) (line : List ℕ) →
        (line_spelling names line ≡ Err LineFault.UnknownInterface) ↔ LacksInterface names line }
{}

/// The set that a list of names spells contains an interface exactly if one of the names belongs to the interface.
pub fn a_set_has_the_interfaces_that_are_named()
    ensures { (names pieces : List (List ℕ)) (iface : ℕ) →
        iface < length names →
        is_in iface (set_named names pieces)
        ≡ list_any (λ piece. option_eq nat_eq (place_of names piece) (Some iface)) pieces }
{}

/// A script has a verdict on an attempt exactly if one of its lines gives that verdict.
pub fn a_script_is_what_its_lines_say()
    ensures { (names : List (List ℕ)) (text : List ℕ)
        (verdicts : VerdictMap) (attempt : ℕ) (verdict : Verdict) →
        script_spelling names text ≡ Ok verdicts →
        (get verdicts attempt ≡ Some verdict) ↔ Gives (sayings names text) attempt verdict }
{}

/// No two lines of a script give a verdict on the same attempt.
pub fn no_attempt_has_two_verdicts()
    ensures { (names : List (List ℕ)) (text : List ℕ) (verdicts : VerdictMap)
        (first second attempt : ℕ) (one other : Verdict) →
        script_spelling names text ≡ Ok verdicts →
        slice_get (sayings names text) first ≡ Some (Ok (Some (attempt, one))) →
        slice_get (sayings names text) second ≡ Some (Ok (Some (attempt, other))) → first ≡ second }
{}

/// The fault that is reported for a text is always the fault of its first faulty line.
pub fn the_first_fault_is_reported()
    ensures { (names : List (List ℕ)) (text : List ℕ) (fault : ScriptError) →
        (script_spelling names text ≡ Err fault) ↔ IsFirstFault (sayings names text) fault }
{}

/// The empty text spells the source without faults.
pub fn the_empty_text_is_perfect()
    ensures { (names : List (List ℕ)) → script_spelling names [] ≡ Ok no_verdicts }
{}
