ghost use Rattle.std.specs.Prelude.{◌≡◌, IfErr, IsTrue, OnOk, false};

use crate::program_error::ProgramError;
use std::alloc::{AllocError, Global};
use std::io::Write;

/// An error of the program and the notes that are printed after its message.
#[derive(Drop)]
pub struct Report<'a> {
    pub error: ProgramError<'a>,
    pub notes: String,
}

impl<'a> Report<'a> {
    /// Returns a report without notes.
    pub fn new(alloc: Global, error: ProgramError<'a>) -> Report<'a>
        ensures { result.error ≡ error.entry }
    {
        Report {
            error,
            notes: String::new(alloc),
        }
    }

    /// Returns a report with notes, or without notes if there is no memory for them.
    pub fn with(
        alloc: Global,
        error: ProgramError<'a>,
        notes: Result<String, AllocError>,
    ) -> Report<'a>
        ensures { result.error ≡ error.entry }
    {
        match notes {
            Ok(notes) => Report { error, notes },
            Err(_) => Report::new(alloc, error),
        }
    }

    /// Returns the report with one more note, if there is memory for the note.
    pub fn and(mut self, note: &str) -> Report<'a>
        ensures { result.error ≡ self.entry.error }
    {
        let _ = self.notes.push_str(note);
        self
    }

    /// Writes `canbusd: TEXT` and then the notes.
    pub fn write_to<E: Write>(&self, errors: &mut E) {
        let error = self.error;
        let _ = writeln!(errors, "canbusd: {error}");
        let _ = errors.write_all(self.notes.as_bytes());
    }
}

/// Reports errors that stop only a part of a job.
#[derive(Drop)]
pub struct Reporter<'e, E: Write> {
    errors: &'e mut E,
    has_reported: bool,
}

impl<'e, E: Write> Reporter<'e, E> {
    /// Returns a reporter that has reported nothing yet.
    pub fn new(errors: &'e mut E) -> Reporter<'e, E>
        ensures { result.has_reported ≡ false }
    {
        Reporter {
            errors,
            has_reported: false,
        }
    }

    /// Reports the error in a part of a job, if there was an error.
    pub fn report(&mut self, outcome: Result<(), Report<'_>>)
        ensures kept { IsTrue self.old.has_reported → IsTrue self.new.has_reported }
        ensures reported { IfErr outcome.entry (λ _. IsTrue self.new.has_reported) }
        ensures quiet { OnOk outcome.entry (self.new.has_reported ≡ self.old.has_reported) }
    {
        if let Err(report) = outcome {
            report.write_to(self.errors);
            self.has_reported = true;
        }
    }

    /// Returns whether an error was reported.
    pub fn has_reported(&self) -> bool
        ensures { result ≡ self.now.has_reported }
    {
        self.has_reported
    }
}
