ghost use Rattle.std.specs.Prelude.{◌≡◌};
ghost use Rattle.can_fault.specs.Sources.{verdict_in};
ghost use Rattle.can_fault.specs.Scripts.{Reads};

use crate::fault_source::FaultSource;
use crate::script_lines::{LineFault, read_line};
use crate::verdict::Verdict;
use can_frame::Names;
use std::alloc::Global;
use std::collections::HashMap;
use std::marker::Model;
use thiserror::Error;

/// The reason why a text is not a valid script. Lines are numbered from 1.
#[derive(Debug, Clone, Copy, PartialEq, Eq, Error)]
pub enum ScriptError {
    /// The line with this number is malformed.
    #[error("script line {0}: bad line")]
    BadLine(usize),
    /// The line with this number names an interface that the bus does not have.
    #[error("script line {0}: unknown interface")]
    UnknownInterface(usize),
    /// The line with this number gives a second verdict on the same attempt.
    #[error("script line {0}: repeated attempt")]
    RepeatedAttempt(usize),
    #[error("no memory")]
    NoMemory,
}

impl LineFault {
    ghost use Rattle.std.specs.Prelude.{◌≡◌};
    ghost use Rattle.can_fault.specs.Scripts.{at_line};

    fn at(self, number: usize) -> ScriptError
        ensures { result ≡ at_line number self }
    {
        match self {
            LineFault::BadLine => ScriptError::BadLine(number),
            LineFault::UnknownInterface => ScriptError::UnknownInterface(number),
        }
    }
}

/// A source of verdicts that was read from a text. It has a verdict on each attempt that the text lists, and `Good` for every other
/// attempt.
#[derive(Debug, Drop)]
pub struct Script {
    verdicts: HashMap<u64, Verdict>,
}

impl Model for Script {
    ghost use Rattle.can_fault.specs.Sources.{VerdictMap, verdict_map_code};
    ghost use Rattle.std.specs.FinMap.{from_entries};

    ghost Value = { VerdictMap };

    ghost coded = { verdict_map_code };

    ghost view = { λ s. from_entries s.verdicts.entries };
}

impl Script {
    ghost use Rattle.std.specs.FinMap.{get};
    ghost use Rattle.can_fault.specs.Sources.{no_verdicts};
    ghost use Rattle.can_fault.specs.Scripts.{line_spelling, TakesLine};

    /// Returns a script without lines.
    pub fn new(alloc: Global) -> Script
        ensures { result ≡ no_verdicts }
    {
        Script {
            verdicts: HashMap::new(alloc),
        }
    }

    /// Reads a script from a text, for a bus with these names. Returns the first fault if the text has one. The time grows with the
    /// length of the text.
    ///
    /// A line is `NUMBER VERDICT`, with one space between words. `NUMBER` is 1 to 8 decimal digits. `VERDICT` is `good`, `lastbit`,
    /// `global bit`, `global form`, or one of `local stuff NAMES`, `local crc NAMES` and `local form NAMES`, with names of
    /// interfaces joined by commas. Empty lines and lines that begin with `#` are ignored.
    pub fn read(alloc: Global, text: &str, names: &Names) -> Result<Script, ScriptError>
        ensures { Reads names.now text.now result }
    {
        let mut script = Script::new(alloc);
        let mut number = 0;
        for line in text.split('\n') {
            number += 1;
            if let Err(fault) = script.take_line(line, number, names) {
                return Err(fault);
            }
        }
        Ok(script)
    }

    /// Adds the verdict of a line to the script. `number` is the number of the line in the text. After an error the script should
    /// not be used.
    pub fn take_line(&mut self, line: &str, number: usize, names: &Names) -> Result<(), ScriptError>
        ensures { TakesLine (line_spelling names.now line.now) number self.old result self.new }
    {
        let (attempt, verdict) = match read_line(line, names) {
            Ok(Some(entry)) => entry,
            Ok(None) => return Ok(()),
            Err(fault) => return Err(fault.at(number)),
        };
        match self.verdicts.insert(attempt, verdict) {
            Ok(None) => {}
            Ok(Some(_)) => return Err(ScriptError::RepeatedAttempt(number)),
            Err(_) => return Err(ScriptError::NoMemory),
        }
        Ok(())
    }

    /// Returns the verdict that a line of the script gives on the attempt with this number, if there is such a line.
    pub fn line(&self, attempt: u64) -> Option<Verdict>
        ensures { result ≡ get self.now attempt }
    {
        self.verdicts.get(&attempt).copied()
    }
}

impl FaultSource for Script {
    ghost use Rattle.std.specs.Prelude.{◌≡◌};
    ghost use Rattle.can_fault.specs.Sources.{verdict_in};

    ghost verdicts = { λ script. script };

    /// Returns the verdict on the attempt with this number.
    fn verdict(&mut self, attempt: u64) -> Verdict
        ensures answer { result ≡ verdict_in self.old attempt }
        ensures keeps { self.new ≡ self.old }
    {
        self.line(attempt).unwrap_or(Verdict::Good)
    }
}
