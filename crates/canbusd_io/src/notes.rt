//! The notes that follow an error message. They say what was wrong, where, and how to correct it. Each note begins with two spaces.
//! A note is left out if there is no memory for it.
use crate::shown::Shown;
use std::alloc::{AllocError, Global};
use std::io::Error;

/// The note on a line that ends with CR and LF.
pub const WITH_CR: &str = "this line ends with CR and LF: lines end with only LF";

/// Returns a note with this fixed wording.
pub fn fixed_note(alloc: Global, note: &str) -> Result<String, AllocError> {
    format!(in alloc; "  {note}\n")
}

/// Returns a note that says why a file or stream could not be opened, read or written.
pub fn reason_note(alloc: Global, place: &str, error: &Error) -> Result<String, AllocError> {
    let place = Shown::whole(place);
    format!(in alloc; "  {place}: {error}\n")
}

/// Returns the line with this number, counted from 1. If the text ends with LF, its last line is empty.
pub(crate) fn line_of(text: &str, number: usize) -> &str {
    let place = number.saturating_sub(1);
    text.split('\n').nth(place).unwrap_or("")
}
