use can_bus::BusFault;
use can_record_text::ReadFault;
use can_rules::PlanError;
use can_session::BenchFault;
use thiserror::Error;

/// The reason why a command line was not carried out. The program prints its error message.
#[derive(Debug, Clone, Copy, PartialEq, Eq, Error)]
pub enum ProgramError<'a> {
    /// The names are not valid for the interfaces of a bus.
    #[error("bad bus")]
    BadNames,
    /// The file with this path could not be opened.
    #[error("cannot open {0}")]
    CannotOpen(&'a str),
    /// A file could not be read or is not UTF-8 text.
    #[error("read fault")]
    Read,
    #[error("{0}")]
    Script(PlanError),
    #[error("{0}")]
    Bench(BenchFault),
    /// A message from a session was refused in a strict run of the bench.
    #[error("message refused")]
    Refused,
    /// No server can have these buses.
    #[error("{0}")]
    Buses(BusFault),
    #[error("cannot listen")]
    CannotListen,
    /// The bus with this first name was given back a pass of another bus.
    #[error("bus {0}: wrong station")]
    WrongStation(&'a str),
    /// The log of the bus with this first name contains only this many complete lines.
    #[error("log of {name}: {whole_lines} whole lines")]
    Log { name: &'a str, whole_lines: u64 },
    #[error("{0}")]
    Record(ReadFault),
    /// The index of the first entry of a record that is not legal, counted from 0.
    #[error("entry {0}: wrong")]
    WrongEntry(usize),
    #[error("write fault")]
    Write,
    #[error("no memory")]
    NoMemory,
    /// The number of names given for a record differs from the number of interfaces of its bus.
    #[error("names of another bus")]
    OtherBus,
}
