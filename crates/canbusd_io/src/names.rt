//! Reads the names of a bus's interfaces, which are separated by commas.
ghost use Rattle.std.specs.Prelude.{◌≡◌, IfErr, IfOk, OnOk};
ghost use Rattle.can_frame.specs.Names.{AreNames, names_in};
ghost use Rattle.canbusd_io.specs.Files.{IsOfNames};

use crate::notes::fixed_note;
use crate::program_error::ProgramError;
use crate::report::Report;
use crate::shown::Shown;
use can_frame::{Names, NamesError, is_name};
use std::alloc::{AllocError, Global};

/// Reads the names of a bus.
pub fn read_names<'a>(alloc: Global, names: &str) -> Result<Names, Report<'a>>
    ensures names { IfOk result (λ n. n ≡ names_in names.now) }
    ensures good { OnOk result (AreNames (names_in names.now)) }
    ensures fault { IfErr result (λ failure. IsOfNames names.now failure.error) }
{
    Names::read(alloc, names).map_err(|error| match error {
        NamesError::BadNames => Report::with(
            alloc,
            ProgramError::BadNames,
            names_note(alloc, names),
        ),
        NamesError::NoMemory => Report::new(alloc, ProgramError::NoMemory),
    })
}

// Returns a note on the name that is invalid or given twice, or on the number of names if there are too many.
fn names_note(alloc: Global, names: &str) -> Result<String, AllocError> {
    let count = names.split(',').count();
    if count > 16 {
        return format!(in alloc; "  {count} names: a bus has 1 to 16\n");
    }
    if let Some(name) = names.split(',').find(|name| !is_name(name)) {
        return name_note(alloc, name);
    }
    match names.split(',').find(|name| is_repeated(names, name)) {
        Some(name) => format!(in alloc; "  {name}: this name is given twice\n"),
        None => Ok(String::new(alloc)),
    }
}

fn name_note(alloc: Global, name: &str) -> Result<String, AllocError> {
    let shown = Shown::cut(name.as_bytes());
    let len = name.len();
    if len == 0 {
        fixed_note(
            alloc,
            "a name is empty: names of 1 to 15 bytes are joined by commas, without spaces",
        )
    } else if len > 15 {
        format!(in alloc; "  {shown}: {len} bytes, a name has 1 to 15\n")
    } else {
        format!(in alloc; "  {shown}: a name has only ASCII letters, digits, _, - and .\n")
    }
}

fn is_repeated(names: &str, name: &str) -> bool {
    names.split(',').filter(|other| *other == name).count() > 1
}
